//! Names of tables, columns and keys.

ghost use Rattle.std.specs.Prelude.{◌≡◌, ◌<◌, nat_eq, get_or, length, IfOk};
ghost use Rattle.std.specs.Ordering.{nat_cmp};
ghost use Rattle.std.specs.Cmp.{partial_equiv_from_equiv};
ghost use Rattle.std.specs.Cmp.Lexicographic.{pointwise, slice_cmp};
ghost use Rattle.std.proofs.lemmas.Cmp.{nat_list_eq_equiv};
ghost use Rattle.base_values.specs.NameHeads.{IsHead};

use crate::compact_text::CompactText;
use crate::duplicate::Duplicate;
use crate::sequence::Sequence;
use std::alloc::{AllocError, Global};
use std::cmp::Ordering;
use std::marker::Model;
use std::sync::Arc;

/// The name of a table, a column or a key. Which texts are names, and how they compare, the reader of each says. Copies share the text.
pub struct Name {
    text: Arc<CompactText>,
    // The first eight bytes as a number: most names differ in it, so they are compared by one test.
    head: u64,
}

// By hand, so that crates above prove it as one call.
impl Drop for Name {
    fn drop(self) {
        let Name { text, head: _ } = self;
        drop(text);
    }
}

impl Model for Name {
    ghost use Rattle.std.specs.Prelude.{ℕ, List};
    ghost use Rattle.std.specs.Arc.{arc_value};
    ghost use Rattle.base_values.specs.NameHeads.{IsHead};

    ghost Value = { List ℕ };

    ghost view = { λ n. arc_value n.text };

    ghost invariant = { λ n. IsHead 8 (arc_value n.text) n.head };
}

/// The byte at a place as a number, and 0 after the last.
fn byte_at(text: &[u8], place: usize) -> u64
    ensures byte { result ≡ get_or text.now place 0 }
    ensures small { result < 256 }
{
    match text.get(place) {
        Some(byte) => u64::from(*byte),
        None => 0,
    }
}

/// The first eight bytes as a number, the first of them highest.
fn head_of(text: &[u8]) -> u64
    ensures { IsHead 8 text.now result }
{
    let mut head = 0;
    for place in 0..8 {
        head = head * 256 + byte_at(text, place);
    }
    head
}

impl Name {
    /// A copy of the text as a name.
    pub fn new(alloc: Global, text: &str) -> Result<Name, AllocError>
        ensures { IfOk result (λ name. name ≡ text.now) }
    {
        Ok(Name {
            text: Arc::new(alloc, CompactText::new(alloc, text)?)?,
            head: head_of(text.as_bytes()),
        })
    }

    /// The name's text.
    pub fn as_str(&self) -> &str
        ensures { result.now ≡ self.now }
    {
        self.text.as_str()
    }

    /// How many bytes its text has.
    fn len(&self) -> usize
        ensures { result ≡ length self.now }
    {
        self.as_str().len()
    }

    /// Which of two names comes first, by their bytes.
    pub fn compare(&self, other: &Name) -> Ordering
        ensures { result ≡ slice_cmp nat_cmp self.now other.now }
    {
        let heads = self.head.cmp(&other.head);
        if heads.is_ne() {
            return heads;
        }
        let (len, other_len) = (self.len(), other.len());
        if len <= 8 && other_len <= 8 {
            return len.cmp(&other_len);
        }
        self.as_str().cmp(other.as_str())
    }
}

impl Duplicate for Name {
    fn copy(&self) -> Result<Name, AllocError> {
        Ok(Name {
            text: self.text.clone()?,
            head: self.head,
        })
    }
}

/// By the bytes, so that letters of either case differ.
impl PartialEq for Name {
    ghost eq = { pointwise nat_eq };

    ghost laws = { partial_equiv_from_equiv nat_list_eq_equiv };

    fn eq(&self, other: &Name) -> bool {
        self.head == other.head && self.as_str() == other.as_str()
    }
}

impl Eq for Name {
    ghost laws = { nat_list_eq_equiv };
}

/// Names in order.
pub type Names = Sequence<Name>;

//! Texts, which contracts see as the list of their UTF-8 bytes.

ghost use Rattle.std.specs.Prelude.{◌≡◌, nat_eq, [], ◌++◌, ◌<◌, IfOk, OnOk, OnErr, string_bytes, encode_utf8};
ghost use Rattle.std.specs.Fmt.{signed_decimal};
ghost use Rattle.std.specs.Cmp.{partial_equiv_from_equiv};
ghost use Rattle.std.specs.Cmp.Lexicographic.{pointwise};
ghost use Rattle.std.proofs.lemmas.Cmp.{nat_list_eq_equiv};

use crate::compact_text::CompactText;
use crate::duplicate::Duplicate;
use itoa::Buffer;
use std::alloc::{AllocError, Global};
use std::marker::Model;
use std::sync::Arc;

/// The text of a value, of a comment or of a default. Copies share it.
pub struct Chars {
    text: Arc<CompactText>,
}

// By hand, so that crates above prove it as one call.
impl Drop for Chars {
    fn drop(self) {
        let Chars { text } = self;
        drop(text);
    }
}

impl Model for Chars {
    ghost use Rattle.std.specs.Prelude.{ℕ, List};
    ghost use Rattle.std.specs.Arc.{arc_value};

    ghost Value = { List ℕ };

    ghost view = { λ c. arc_value c.text };
}

impl Chars {
    /// A copy of the text.
    pub fn new(alloc: Global, text: &str) -> Result<Chars, AllocError>
        ensures { IfOk result (λ chars. chars ≡ text.now) }
    {
        Ok(Chars {
            text: Arc::new(alloc, CompactText::new(alloc, text)?)?,
        })
    }

    /// A text that was built.
    pub fn from_string(text: String) -> Result<Chars, AllocError>
        ensures { IfOk result (λ chars. chars ≡ string_bytes text) }
    {
        let alloc = *text.allocator();
        Ok(Chars {
            text: Arc::new(alloc, CompactText::from_text(Text { text }))?,
        })
    }

    /// The text itself.
    pub fn as_str(&self) -> &str
        ensures { result.now ≡ self.now }
    {
        self.text.as_str()
    }
}

impl Duplicate for Chars {
    fn copy(&self) -> Result<Chars, AllocError> {
        Ok(Chars {
            text: self.text.clone()?,
        })
    }
}

/// By the bytes, so that letters of either case differ.
impl PartialEq for Chars {
    ghost eq = { pointwise nat_eq };

    ghost laws = { partial_equiv_from_equiv nat_list_eq_equiv };

    fn eq(&self, other: &Chars) -> bool {
        self.as_str() == other.as_str()
    }
}

impl Eq for Chars {
    ghost laws = { nat_list_eq_equiv };
}

/// A text that grows: what the program prints is built in one.
pub struct Text {
    text: String,
}

// By hand, so that crates above prove it as one call.
impl Drop for Text {
    fn drop(self) {
        let Text { text } = self;
        drop(text);
    }
}

impl Model for Text {
    ghost use Rattle.std.specs.Prelude.{ℕ, List, string_bytes};

    ghost Value = { List ℕ };

    ghost view = { λ t. string_bytes t.text };
}

impl Text {
    /// The empty text.
    pub fn new(alloc: Global) -> Text
        ensures { result ≡ [] }
    {
        Text {
            text: String::new(alloc),
        }
    }

    /// The empty text, with room for so many bytes.
    pub fn with_capacity(alloc: Global, bytes: usize) -> Result<Text, AllocError>
        ensures { IfOk result (λ text. text ≡ []) }
    {
        Ok(Text {
            text: String::with_capacity(alloc, bytes)?,
        })
    }

    /// The text itself.
    pub fn as_str(&self) -> &str
        ensures { result.now ≡ self.now }
    {
        self.text.as_str()
    }

    /// Adds a text at the end.
    pub fn push_str(&mut self, piece: &str) -> Result<(), AllocError>
        ensures ok { OnOk result (self.new ≡ self.old ++ piece.now) }
        ensures err { OnErr result (self.new ≡ self.old) }
    {
        self.text.push_str(piece)
    }

    /// Adds a character at the end.
    pub fn push_char(&mut self, character: char) -> Result<(), AllocError>
        ensures ok { OnOk result (self.new ≡ self.old ++ encode_utf8 character) }
        ensures err { OnErr result (self.new ≡ self.old) }
    {
        self.text.push(character)
    }

    /// Adds a number in decimal at the end.
    pub fn push_number(&mut self, number: i128) -> Result<(), AllocError>
        ensures ok { OnOk result (self.new ≡ self.old ++ signed_decimal number) }
        ensures err { OnErr result (self.new ≡ self.old) }
    {
        self.push_str(Buffer::new().format(number))
    }

    /// The allocator that the text grows by.
    pub fn allocator(&self) -> Global {
        *self.text.allocator()
    }
}

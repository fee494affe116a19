//! A text that its owner alone has.

ghost use Rattle.std.specs.Prelude.{◌≡◌, IfOk};

use crate::text::Text;
use arrayvec::ArrayString;
use std::alloc::{AllocError, Global};
use std::marker::Model;

/// Where the bytes of a text are.
enum Bytes {
    /// Up to 24, as nearly all names and words have, lie in the text itself and take no memory.
    Here(ArrayString<24>),
    /// More lie elsewhere.
    Elsewhere(Text),
}

// By hand, so that crates above prove it as one call.
impl Drop for Bytes {
    fn drop(self) {
        match self {
            Bytes::Here(_) => {}
            Bytes::Elsewhere(text) => drop(text),
        }
    }
}

/// A text that doesn't change. A short one takes no memory of its own.
pub struct CompactText {
    bytes: Bytes,
}

// By hand, so that crates above prove it as one call.
impl Drop for CompactText {
    fn drop(self) {
        let CompactText { bytes } = self;
        drop(bytes);
    }
}

impl Model for CompactText {
    ghost use Rattle.std.specs.Prelude.{ℕ, List};
    ghost use Rattle.base_values.specs.CompactTexts.{bytes_of};

    ghost Value = { List ℕ };

    ghost view = { λ t. bytes_of t.bytes };
}

impl CompactText {
    /// A copy of the text.
    pub fn new(alloc: Global, text: &str) -> Result<CompactText, AllocError>
        ensures { IfOk result (λ copy. copy ≡ text.now) }
    {
        if let Ok(short) = ArrayString::from(text) {
            return Ok(CompactText {
                bytes: Bytes::Here(short),
            });
        }
        let mut copy = Text::with_capacity(alloc, text.len())?;
        copy.push_str(text)?;
        Ok(CompactText {
            bytes: Bytes::Elsewhere(copy),
        })
    }

    /// A text that was built.
    pub fn from_text(text: Text) -> CompactText
        ensures { result ≡ text }
    {
        let bytes = match ArrayString::from(text.as_str()) {
            Ok(short) => Bytes::Here(short),
            Err(_) => Bytes::Elsewhere(text),
        };
        CompactText { bytes }
    }

    /// The text itself.
    pub fn as_str(&self) -> &str
        ensures { result.now ≡ self.now }
    {
        match &self.bytes {
            Bytes::Here(text) => text.as_str(),
            Bytes::Elsewhere(text) => text.as_str(),
        }
    }
}

//! Words, and why a text has none.

use std::alloc::{AllocError, AllocFailed};
use std::marker::Model;
use thiserror::Error;

/// What sort of word it is.
#[derive(Clone, Copy, Debug)]
pub enum WordClass {
    /// An unquoted name or keyword.
    Name,
    /// A name in backquotes.
    Quoted,
    /// An integer, with its sign.
    Number,
    /// A text in quotes.
    Text,
    /// Bytes, as `x'0a'`.
    Bytes,
    /// A sign, as `(` or `<=`.
    Sign,
}

/// A word of a text.
#[derive(Clone, Copy)]
pub struct Word<'a> {
    pub class: WordClass,
    /// The word as it is in the text, with its quotes.
    pub text: &'a str,
    /// The byte of the text, counted from 0, at which the word begins.
    pub place: usize,
}

/// The words of a text, in its order.
#[derive(Drop)]
pub struct Words<'a> {
    items: Vec<Word<'a>>,
}

impl<'a> Model for Words<'a> {
    ghost use Rattle.std.specs.Prelude.{List};
    ghost use Rattle.sql_words.specs.Readings.{Reading, views};

    ghost Value = { List Reading };

    ghost view = { λ w. views w.items.items };
}

impl<'a> Words<'a> {
    ghost use Rattle.std.specs.Prelude.{◌≡◌, ◌==◌, length, slice_get, option_map};
    ghost use Rattle.sql_words.specs.Readings.{view, views};

    pub(crate) fn from_vec(items: Vec<Word<'a>>) -> Self
        ensures { result ≡ views items.entry.items }
    {
        Words { items }
    }

    /// How many words there are.
    pub fn len(&self) -> usize
        ensures { result ≡ length self.now }
    {
        self.items.len()
    }

    /// Whether there is no word.
    pub fn is_empty(&self) -> bool
        ensures { result ≡ (length self.now == 0) }
    {
        self.items.is_empty()
    }

    /// The word with this index, counted from 0.
    pub fn get(&self, index: usize) -> Option<&Word<'a>>
        ensures { option_map (λ w. view w.now) result ≡ slice_get self.now index }
    {
        self.items.get(index)
    }

    /// The words as a slice.
    pub fn as_slice(&self) -> &[Word<'a>]
        ensures { views result.now ≡ self.now }
    {
        self.items.as_slice()
    }
}

/// The first thing in a text that is no word. Each place is a byte of the text, counted from 0.
#[derive(Debug, Drop, Error)]
pub enum WordFault {
    /// The quote that opens here is never closed.
    #[error("the quote at byte {place} is never closed")]
    Unclosed { place: usize },
    /// No word begins with the character that stands here.
    #[error("no word begins at byte {place}")]
    Odd { place: usize },
    /// The number that begins here has more than 38 digits.
    #[error("the number at byte {place} has more than 38 digits")]
    TooLong { place: usize },
    #[error("out of memory")]
    Memory,
}

impl From<AllocError> for WordFault {
    ghost use Rattle.std.specs.Prelude.{◌≡◌};
    ghost use Rattle.sql_words.specs.declared.word.WordFault.TheVariants.{Memory};

    ghost from_gives = { λ _ e. e ≡ Memory };

    fn from(_error: AllocError) -> WordFault {
        WordFault::Memory
    }
}

impl<T: Drop> From<AllocFailed<T>> for WordFault {
    ghost use Rattle.std.specs.Prelude.{◌≡◌};
    ghost use Rattle.sql_words.specs.declared.word.WordFault.TheVariants.{Memory};

    ghost from_gives = { λ _ e. e ≡ Memory };

    fn from(_error: AllocFailed<T>) -> WordFault {
        WordFault::Memory
    }
}

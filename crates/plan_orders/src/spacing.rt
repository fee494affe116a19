//! How a text is cut into words.

ghost use Rattle.std.specs.Prelude.{◌≡◌, ◌<◌, ◌==◌, length, position, IfOk, IfSome, map, option_map};
ghost use Rattle.std.specs.Str.{bytes_eq};
ghost use Rattle.plan_orders.specs.Words.{is_space, spaced_words, parts_at};

use std::alloc::{AllocError, Global};

fn is_space(byte: u8) -> bool
    ensures { result ≡ is_space byte }
{
    byte == b' ' || byte == b'\t' || byte == b'\r' || byte == b'\n'
}

/// The words of a text: its parts between white space.
pub fn spaced_words(alloc: Global, text: &str) -> Result<Vec<&[u8]>, AllocError>
    ensures { IfOk result (λ words. map (λ word. word.now) words.items ≡ spaced_words text.now) }
{
    text.as_bytes()
        .split(|byte| is_space(*byte))
        .filter(|word| !word.is_empty())
        .collect(alloc)
}

/// Whether a word is this one.
pub fn is_word(word: &[u8], known: &str) -> bool
    ensures { result ≡ bytes_eq word.now known.now }
{
    word == known.as_bytes()
}

fn place_of(mark: u8, word: &[u8]) -> Option<usize>
    ensures place { result ≡ position (λ byte. byte == mark) word.now }
    ensures within { IfSome result (λ place. place < length word.now) }
{
    word.iter().position(|byte| *byte == mark)
}

/// What comes before and after the first such mark in a word.
pub fn parts_at(mark: u8, word: &[u8]) -> Option<(&[u8], &[u8])>
    ensures { option_map (λ parts. (parts.0.now, parts.1.now)) result ≡ parts_at mark word.now }
{
    match place_of(mark, word) {
        None => None,
        Some(place) => Some((&word[..place], &word[place + 1..])),
    }
}

//! The columns of a key as they are written.

ghost use Rattle.std.specs.Prelude.{◌≡◌, length};
ghost use Rattle.sql_grammar.specs.Keys.{is_number, begins_number, prefix_or, key_mismatch, names_at, key_columns_at, key_name_at, key_at};
ghost use Rattle.base_values.specs.Faults.{Answers};

use crate::code::{SchemaCode, SchemaFault};
use crate::pieces::{after_keyword, after_sign, name_at, sign_at};
use crate::scope::mismatch;
use crate::token::Token;
use base_values::{Name, Names, Sequence};
use sql_words::WordClass;
use std::alloc::Global;

/// A key or an index as it is written.
#[derive(Drop)]
pub struct KeyText {
    /// Its name, where one is written.
    pub name: Option<Name>,
    /// The names of its columns, in order.
    pub columns: Names,
}

fn begins_number(words: &[Token]) -> bool
    ensures { result ≡ begins_number words.now }
{
    match words {
        [] => false,
        [word, ..] => matches!(word.class, WordClass::Number),
    }
}

/// What a key is refused with where these words come after one of its columns.
#[tactic(auto, unfolding(crate::specs::Keys::key_mismatch))]
fn key_mismatch(words: &[Token]) -> SchemaCode
    ensures { result ≡ key_mismatch words.now }
{
    match (after_keyword("DESC", words), after_sign("(", words)) {
        (Some(_), _) => SchemaCode::Scope,
        (None, Some(rest)) if begins_number(rest) => SchemaCode::Scope,
        _ => mismatch(words),
    }
}

/// The names at the front, with commas between them, and what follows them.
#[tactic(auto, unfolding(crate::specs::Keys::names_at))]
pub fn names_at(alloc: Global, words: &[Token]) -> Result<(Names, &[Token]), SchemaFault>
    ensures { Answers (λ names. (names.0, names.1.now)) result (names_at words.now) }
{
    let mut names = Sequence::new(alloc);
    let mut rest = words;
    // Each name takes a word, so there are no more names than words: that bounds the loop, and the definition likewise.
    for _ in 0..words.len() {
        let (name, following) = name_at(alloc, rest)?;
        names.push(name)?;
        match after_sign(",", following) {
            None => return Ok((names, following)),
            Some(next) => rest = next,
        }
    }
    Err(SchemaFault::Refused(SchemaCode::Syntax))
}

/// The names of a key's columns in parentheses at the front, and what follows them.
#[tactic(auto, unfolding(crate::specs::Keys::key_columns_at))]
pub fn key_columns_at(alloc: Global, words: &[Token]) -> Result<(Names, &[Token]), SchemaFault>
    ensures { Answers (λ names. (names.0, names.1.now)) result (key_columns_at words.now) }
{
    let rest = sign_at("(", words)?;
    let (names, rest) = names_at(alloc, rest)?;
    match after_sign(")", rest) {
        None => Err(SchemaFault::Refused(key_mismatch(rest))),
        Some(rest) => Ok((names, rest)),
    }
}

#[tactic(auto, unfolding(crate::specs::Keys::key_name_at))]
fn key_name_at(alloc: Global, words: &[Token]) -> Result<(Option<Name>, &[Token]), SchemaFault>
    ensures { Answers (λ name. (name.0, name.1.now)) result (key_name_at words.now) }
{
    match after_sign("(", words) {
        Some(_) => Ok((None, words)),
        None => {
            let (name, rest) = name_at(alloc, words)?;
            Ok((Some(name), rest))
        }
    }
}

/// The name of a key, where one is written, and its columns, and what follows them.
#[tactic(auto, unfolding(crate::specs::Keys::key_at))]
pub fn key_at(alloc: Global, words: &[Token]) -> Result<(KeyText, &[Token]), SchemaFault>
    ensures { Answers (λ key. (key.0, key.1.now)) result (key_at words.now) }
{
    let (name, rest) = key_name_at(alloc, words)?;
    let (columns, rest) = key_columns_at(alloc, rest)?;
    Ok((KeyText { name, columns }, rest))
}

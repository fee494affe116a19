//! The kinds of columns as they are written.

ghost use Rattle.std.specs.Prelude.{◌≡◌, codes};
ghost use Rattle.sql_grammar.specs.Kinds.{kind_word, width_at, signed_kind, length_of, length_at, kind_after, kind_at};
ghost use Rattle.sql_grammar.specs.Pieces.{after_keyword};
ghost use Rattle.base_values.specs.Faults.{Answers};

use crate::code::{SchemaCode, SchemaFault};
use crate::pieces::{after_keyword, after_sign, number_at, sign_at};
use crate::scope::mismatch;
use crate::token::Token;
use base_values::Kind;

/// The word that a kind begins with.
#[derive(Clone, Copy)]
pub enum KindWord {
    /// An integer kind of this many bytes.
    Integer(u8),
    /// VARCHAR.
    VarChar,
    /// VARBINARY.
    VarBinary,
}

#[tactic(auto, unfolding(crate::specs::Kinds::kind_word))]
fn kind_word(word: &Token) -> Option<KindWord>
    ensures { result ≡ kind_word word.now }
{
    if word.is_keyword("TINYINT") {
        Some(KindWord::Integer(1))
    } else if word.is_keyword("SMALLINT") {
        Some(KindWord::Integer(2))
    } else if word.is_keyword("MEDIUMINT") {
        Some(KindWord::Integer(3))
    } else if word.is_keyword("INT") || word.is_keyword("INTEGER") {
        Some(KindWord::Integer(4))
    } else if word.is_keyword("BIGINT") {
        Some(KindWord::Integer(8))
    } else if word.is_keyword("VARCHAR") {
        Some(KindWord::VarChar)
    } else if word.is_keyword("VARBINARY") {
        Some(KindWord::VarBinary)
    } else {
        None
    }
}

#[tactic(auto, unfolding(crate::specs::Kinds::width_at))]
fn width_at(words: &[Token]) -> Result<&[Token], SchemaFault>
    ensures { Answers (λ rest. rest.now) result (width_at words.now) }
{
    match after_sign("(", words) {
        None => Ok(words),
        Some(rest) => {
            let (_, rest) = number_at(rest)?;
            sign_at(")", rest)
        }
    }
}

fn signed_kind(bytes: u8, words: &[Token]) -> (Kind, &[Token])
    ensures { (result.0, result.1.now) ≡ signed_kind bytes words.now (after_keyword (codes "UNSIGNED") words.now) }
{
    match after_keyword("UNSIGNED", words) {
        None => (
            Kind::Int {
                bytes,
                unsigned: false,
            },
            words,
        ),
        Some(rest) => (
            Kind::Int {
                bytes,
                unsigned: true,
            },
            rest,
        ),
    }
}

fn length_of(number: i128) -> Option<u16>
    ensures { result ≡ length_of number }
{
    if 1 <= number && number <= 1000 {
        Some(number as u16)
    } else {
        None
    }
}

#[tactic(auto, unfolding(crate::specs::Kinds::length_at))]
fn length_at(words: &[Token]) -> Result<(u16, &[Token]), SchemaFault>
    ensures { Answers (λ length. (length.0, length.1.now)) result (length_at words.now) }
{
    let rest = sign_at("(", words)?;
    let (number, rest) = number_at(rest)?;
    match length_of(number) {
        None => Err(SchemaFault::Refused(SchemaCode::Scope)),
        Some(length) => {
            let rest = sign_at(")", rest)?;
            Ok((length, rest))
        }
    }
}

#[tactic(auto, unfolding(crate::specs::Kinds::kind_after))]
fn kind_after(kind: KindWord, words: &[Token]) -> Result<(Kind, &[Token]), SchemaFault>
    ensures { Answers (λ kind. (kind.0, kind.1.now)) result (kind_after kind words.now) }
{
    match kind {
        KindWord::Integer(bytes) => {
            let rest = width_at(words)?;
            Ok(signed_kind(bytes, rest))
        }
        KindWord::VarChar => {
            let (length, rest) = length_at(words)?;
            Ok((Kind::VarChar(length), rest))
        }
        KindWord::VarBinary => {
            let (length, rest) = length_at(words)?;
            Ok((Kind::VarBinary(length), rest))
        }
    }
}

/// The kind at the front, and what follows it.
#[tactic(auto, unfolding(crate::specs::Kinds::kind_at))]
pub fn kind_at(words: &[Token]) -> Result<(Kind, &[Token]), SchemaFault>
    ensures { Answers (λ kind. (kind.0, kind.1.now)) result (kind_at words.now) }
{
    match words {
        [] => Err(SchemaFault::Refused(mismatch(words))),
        [word, rest @ ..] => {
            match kind_word(word) {
                Some(kind) => kind_after(kind, rest),
                None => Err(SchemaFault::Refused(mismatch(words))),
            }
        }
    }
}

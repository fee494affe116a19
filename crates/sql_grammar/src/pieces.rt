//! Single words at the front of what is left of a text.

ghost use Rattle.std.specs.Prelude.{◌≡◌, option_map, IfOk};
ghost use Rattle.sql_grammar.specs.Pieces.{after_keyword, after_sign, keyword_at, sign_at, after_name, name_at, number_of, number_at, text_of, text_at, literal_of, literal_at, any_word_at};
ghost use Rattle.base_values.specs.Faults.{Answers};

use crate::code::SchemaFault;
use crate::scope::mismatch;
use crate::token::Token;
use crate::word_values::literal;
use base_values::{Chars, Name, Value};
use sql_words::WordClass;
use std::alloc::{AllocError, Global};

/// What follows this keyword, where it is the first word.
#[tactic(auto, unfolding(crate::specs::Pieces::after_keyword))]
pub fn after_keyword<'a>(keyword: &str, words: &'a [Token]) -> Option<&'a [Token]>
    ensures { option_map (λ rest. rest.now) result ≡ after_keyword keyword.now words.now }
{
    match words {
        [] => None,
        [word, rest @ ..] => {
            if word.is_keyword(keyword) {
                Some(rest)
            } else {
                None
            }
        }
    }
}

/// What follows this sign, where it is the first word.
#[tactic(auto, unfolding(crate::specs::Pieces::after_sign))]
pub fn after_sign<'a>(sign: &str, words: &'a [Token]) -> Option<&'a [Token]>
    ensures { option_map (λ rest. rest.now) result ≡ after_sign sign.now words.now }
{
    match words {
        [] => None,
        [word, rest @ ..] => { if word.is_sign(sign) { Some(rest) } else { None } }
    }
}

/// What follows this keyword, which has to be the first word.
#[tactic(auto, unfolding(crate::specs::Pieces::keyword_at))]
pub fn keyword_at<'a>(keyword: &str, words: &'a [Token]) -> Result<&'a [Token], SchemaFault>
    ensures { Answers (λ rest. rest.now) result (keyword_at keyword.now words.now) }
{
    match after_keyword(keyword, words) {
        Some(rest) => Ok(rest),
        None => Err(SchemaFault::Refused(mismatch(words))),
    }
}

/// What follows this sign, which has to be the first word.
#[tactic(auto, unfolding(crate::specs::Pieces::sign_at))]
pub fn sign_at<'a>(sign: &str, words: &'a [Token]) -> Result<&'a [Token], SchemaFault>
    ensures { Answers (λ rest. rest.now) result (sign_at sign.now words.now) }
{
    match after_sign(sign, words) {
        Some(rest) => Ok(rest),
        None => Err(SchemaFault::Refused(mismatch(words))),
    }
}

#[tactic(auto, unfolding(crate::specs::Pieces::after_name))]
fn after_name(words: &[Token]) -> Option<(&str, &[Token])>
    ensures { option_map (λ name. (name.0.now, name.1.now)) result ≡ after_name words.now }
{
    match words {
        [] => None,
        [word, rest @ ..] => {
            match word.word().name() {
                Some(name) => Some((name, rest)),
                None => None,
            }
        }
    }
}

/// The name at the front, and what follows it.
#[tactic(auto, unfolding(crate::specs::Pieces::name_at))]
pub fn name_at(alloc: Global, words: &[Token]) -> Result<(Name, &[Token]), SchemaFault>
    ensures { Answers (λ name. (name.0, name.1.now)) result (name_at words.now) }
{
    match after_name(words) {
        Some((name, rest)) => Ok((Name::new(alloc, name)?, rest)),
        None => Err(SchemaFault::Refused(mismatch(words))),
    }
}

fn number_of(word: &Token) -> Option<i128>
    ensures { result ≡ number_of word.now.class word.now.text }
{
    match word.class {
        WordClass::Number => word.word().number_value(),
        _ => None,
    }
}

/// The number at the front, and what follows it.
#[tactic(auto, unfolding(crate::specs::Pieces::number_at))]
pub fn number_at(words: &[Token]) -> Result<(i128, &[Token]), SchemaFault>
    ensures { Answers (λ number. (number.0, number.1.now)) result (number_at words.now) }
{
    match words {
        [] => Err(SchemaFault::Refused(mismatch(words))),
        [word, rest @ ..] => {
            match number_of(word) {
                Some(number) => Ok((number, rest)),
                None => Err(SchemaFault::Refused(mismatch(words))),
            }
        }
    }
}

fn text_of(alloc: Global, word: &Token) -> Result<Option<Chars>, AllocError>
    ensures { IfOk result (λ text. text ≡ text_of word.now.class word.now.text) }
{
    match word.class {
        WordClass::Text => match word.word().text_value(alloc)? {
            Some(text) => Ok(Some(Chars::new(alloc, text.as_str())?)),
            None => Ok(None),
        },
        _ => Ok(None),
    }
}

/// The text at the front, and what follows it.
#[tactic(auto, unfolding(crate::specs::Pieces::text_at))]
pub fn text_at(alloc: Global, words: &[Token]) -> Result<(Chars, &[Token]), SchemaFault>
    ensures { Answers (λ text. (text.0, text.1.now)) result (text_at words.now) }
{
    match words {
        [] => Err(SchemaFault::Refused(mismatch(words))),
        [word, rest @ ..] => {
            match text_of(alloc, word)? {
                Some(text) => Ok((text, rest)),
                None => Err(SchemaFault::Refused(mismatch(words))),
            }
        }
    }
}

fn literal_of(alloc: Global, word: &Token) -> Result<Option<Value>, AllocError>
    ensures { IfOk result (λ value. value ≡ literal_of word.now) }
{
    if word.is_keyword("NULL") {
        Ok(Some(Value::Null))
    } else {
        literal(alloc, &word.word())
    }
}

/// The literal at the front, and what follows it.
#[tactic(auto, unfolding(crate::specs::Pieces::literal_at))]
pub fn literal_at(alloc: Global, words: &[Token]) -> Result<(Value, &[Token]), SchemaFault>
    ensures { Answers (λ value. (value.0, value.1.now)) result (literal_at words.now) }
{
    match words {
        [] => Err(SchemaFault::Refused(mismatch(words))),
        [word, rest @ ..] => {
            match literal_of(alloc, word)? {
                Some(value) => Ok((value, rest)),
                None => Err(SchemaFault::Refused(mismatch(words))),
            }
        }
    }
}

/// What follows any word but a sign, which has to be the first word.
#[tactic(auto, unfolding(crate::specs::Pieces::any_word_at))]
pub fn any_word_at(words: &[Token]) -> Result<&[Token], SchemaFault>
    ensures { Answers (λ rest. rest.now) result (any_word_at words.now) }
{
    match words {
        [] => Err(SchemaFault::Refused(mismatch(words))),
        [word, rest @ ..] => {
            if word.is_any_sign() {
                Err(SchemaFault::Refused(mismatch(words)))
            } else {
                Ok(rest)
            }
        }
    }
}

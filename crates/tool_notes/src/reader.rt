//! The reader of checkpoint rows.

ghost use Rattle.std.specs.Prelude.{◌≡◌, IfOk, MatchOption, length};
ghost use Rattle.std.specs.List.{before_first, after_first, position_or_len};
ghost use Rattle.sql_words.specs.Readings.{views};
ghost use Rattle.tool_notes.specs.Readings.{is_blank, literals_among, literals, position_of, reach_of, note_of, has_text, checked, checkpoint_of};

use crate::checkpoint::Checkpoint;
use base_values::{Row, Sequence, Shared, Value};
use sql_grammar::word_values::literal;
use sql_words::{Word, WordFault, words};
use std::alloc::{AllocError, Global};
use tool_changelog::{CHECKPOINT_HINT, Reach, checkpoint_value};

fn literals_among(alloc: Global, words: &[Word<'_>]) -> Result<Row, AllocError>
    ensures { IfOk result (λ values. values ≡ literals_among (views words.now)) }
{
    let mut values = Sequence::new(alloc);
    for word in words {
        if let Some(value) = literal(alloc, word)? {
            values.push(value)?;
        }
    }
    Shared::from_sequence(values)
}

/// The literals of a text; none where it has a fault.
fn literals(alloc: Global, text: &str) -> Result<Row, AllocError>
    ensures { IfOk result (λ values. values ≡ literals text.now) }
{
    match words(alloc, text) {
        Ok(words) => literals_among(alloc, words.as_slice()),
        Err(WordFault::Memory) => Err(AllocError),
        Err(_) => Shared::from_sequence(Sequence::new(alloc)),
    }
}

fn position_of(values: &[Value]) -> Option<u64>
    ensures { result ≡ position_of values.now }
{
    match values {
        [Value::Num(number)] => u64::try_from(*number).ok(),
        _ => None,
    }
}

fn reach_of(alloc: Global, text: &str) -> Result<Reach, AllocError>
    ensures { IfOk result (λ reach. reach ≡ reach_of text.now) }
{
    if text == "-" {
        Ok(Reach::Nothing)
    } else if text == "*" {
        Ok(Reach::All)
    } else {
        Ok(Reach::To(literals(alloc, text)?))
    }
}

/// What comes before the first blank, and what follows it.
fn split(text: &str) -> Option<(&str, &str)>
    ensures { MatchOption result (position_or_len is_blank text.now ≡ length text.now) (λ parts. (parts.0.now ≡ before_first is_blank text.now) × (parts.1.now ≡ after_first is_blank text.now)) }
{
    text.split_once(' ')
}

/// The same, with all of the text in front where it has no blank.
fn parts(text: &str) -> (&str, &str)
    ensures before { result.0.now ≡ before_first is_blank text.now }
    ensures following { result.1.now ≡ after_first is_blank text.now }
{
    match split(text) {
        Some(parts) => parts,
        None => (text, ""),
    }
}

/// The checkpoint that a text tells: its position comes before the first blank, and its reach after it.
fn note_of(alloc: Global, text: &str) -> Result<Option<Checkpoint>, AllocError>
    ensures { IfOk result (λ note. note ≡ note_of text.now) }
{
    let (before, following) = parts(text);
    let values = literals(alloc, before)?;
    let Some(position) = position_of(values.as_slice()) else {
        return Ok(None);
    };
    let reach = reach_of(alloc, following)?;
    Ok(Some(Checkpoint { position, reach }))
}

fn has_text(value: &Option<Value>, text: &str) -> bool
    ensures { result ≡ has_text value.now text.now }
{
    match value {
        Some(Value::Text(value)) => value.as_str() == text,
        _ => false,
    }
}

/// The checkpoint, where its row has just this text.
fn checked(alloc: Global, text: &str, note: Checkpoint) -> Result<Option<Checkpoint>, AllocError>
    ensures { IfOk result (λ found. found ≡ checked text.now note) }
{
    // Made again and compared: so a position with a nought in front, say, is no checkpoint's.
    let value = checkpoint_value(alloc, note.position, &note.reach)?;
    if has_text(&value, text) {
        Ok(Some(note))
    } else {
        Ok(None)
    }
}

/// The checkpoint whose row this is; none where it is no checkpoint row.
pub fn checkpoint_of(alloc: Global, row: &[Value]) -> Result<Option<Checkpoint>, AllocError>
    ensures { IfOk result (λ found. found ≡ checkpoint_of row.now) }
{
    let [Value::Num(id), Value::Text(hint), Value::Text(value)] = row else {
        return Ok(None);
    };
    if *id == 0 && hint.as_str() == CHECKPOINT_HINT {
        match note_of(alloc, value.as_str())? {
            Some(note) => checked(alloc, value.as_str(), note),
            None => Ok(None),
        }
    } else {
        Ok(None)
    }
}

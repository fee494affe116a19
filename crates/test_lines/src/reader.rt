//! The pieces of which inputs are made: numbers, values, rows, kinds and bytes.

ghost use Rattle.std.specs.Prelude.{◌≡◌};

use base_values::{Chars, Kind, Row, Sequence, Shared, Text, Value};
use std::alloc::{AllocError, AllocFailed, Global};

/// Why a call has no answer.
#[derive(Clone, Copy)]
pub enum CallFault {
    /// The call or its input can't be read.
    Unread,
    /// There is no memory for the answer.
    Memory,
}

impl From<AllocError> for CallFault {
    fn from(_error: AllocError) -> CallFault {
        CallFault::Memory
    }
}

impl<T: Drop> From<AllocFailed<T>> for CallFault {
    fn from(_error: AllocFailed<T>) -> CallFault {
        CallFault::Memory
    }
}

/// Adds a piece to an answer, with a semicolon before it where there are others.
pub fn say(output: &mut Text, piece: &str) -> Result<(), AllocError> {
    if !output.as_str().is_empty() {
        output.push_str("; ")?;
    }
    output.push_str(piece)
}

/// The text of a word.
pub fn text_of(alloc: Global, word: &str) -> Result<Text, CallFault> {
    let mut text = Text::new(alloc);
    text.push_str(word)?;
    Ok(text)
}

/// `yes` or `no`.
pub fn yes_or_no(alloc: Global, answer: bool) -> Result<Text, CallFault> {
    text_of(alloc, if answer { "yes" } else { "no" })
}

/// A whole number.
pub fn number_of(text: &str) -> Result<i128, CallFault> {
    text.parse::<i128>().map_err(|_| CallFault::Unread)
}

/// The place of a column, a key or a row.
pub fn place_of(text: &str) -> Result<usize, CallFault> {
    text.parse::<usize>().map_err(|_| CallFault::Unread)
}

/// A number that isn't below 0: of a session, of rows, a limit or a load.
pub fn unsigned_of(text: &str) -> Result<u32, CallFault> {
    text.parse::<u32>().map_err(|_| CallFault::Unread)
}

/// Bytes that are written as two digits each, with blanks between them.
pub fn bytes_of(alloc: Global, codes: &str) -> Result<Sequence<u8>, CallFault> {
    let mut bytes = Sequence::new(alloc);
    for code in codes.split(' ') {
        if !code.is_empty() {
            bytes.push(u8::from_str_radix(code, 16).map_err(|_| CallFault::Unread)?)?;
        }
    }
    Ok(bytes)
}

/// Adds the characters of these codes.
pub fn push_codes(into: &mut Text, codes: &str) -> Result<(), CallFault> {
    let bytes = bytes_of(into.allocator(), codes)?;
    for byte in bytes.as_slice() {
        into.push_char(char::from(*byte))?;
    }
    Ok(())
}

/// A value: `NULL`, a number, a text in quotes as it is, or bytes as `x'0a ff'`.
pub fn value_of(alloc: Global, text: &str) -> Result<Value, CallFault> {
    if text == "NULL" {
        return Ok(Value::Null);
    }
    let Some(quoted) = text.strip_suffix('\'') else {
        return Ok(Value::Num(number_of(text)?));
    };
    if let Some(codes) = quoted.strip_prefix("x'") {
        return Ok(Value::Blob(Shared::from_sequence(bytes_of(alloc, codes)?)?));
    }
    let written = quoted.strip_prefix('\'').ok_or(CallFault::Unread)?;
    Ok(Value::Text(Chars::new(alloc, written)?))
}

/// Values with commas between them.
pub fn row_of(alloc: Global, text: &str) -> Result<Row, CallFault> {
    let mut row = Sequence::new(alloc);
    if !text.is_empty() {
        for value in text.split(", ") {
            row.push(value_of(alloc, value)?)?;
        }
    }
    Ok(Shared::from_sequence(row)?)
}

/// A kind, as `TINYINT UNSIGNED` or `VARCHAR 3`.
pub fn kind_of(text: &str) -> Result<Kind, CallFault> {
    let (name, rest) = text.split_once(' ').unwrap_or((text, ""));
    let bytes = match name {
        "TINYINT" => 1,
        "SMALLINT" => 2,
        "MEDIUMINT" => 3,
        "INT" => 4,
        "BIGINT" => 8,
        _ => return sized_kind_of(name, rest),
    };
    Ok(Kind::Int {
        bytes,
        unsigned: rest == "UNSIGNED",
    })
}

fn sized_kind_of(name: &str, size: &str) -> Result<Kind, CallFault> {
    let size = size.parse::<u16>().map_err(|_| CallFault::Unread)?;
    match name {
        "VARCHAR" => Ok(Kind::VarChar(size)),
        "VARBINARY" => Ok(Kind::VarBinary(size)),
        _ => Err(CallFault::Unread),
    }
}

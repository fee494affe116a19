//! What columns store of values.

ghost use Rattle.std.specs.Prelude.{◌≡◌, ◌<◌, ◌≤◌, ◌^◌, is_some, IfOk};
ghost use Rattle.std.specs.Char.{is_ascii_digit};
ghost use Rattle.std.specs.List.{list_all};
ghost use Rattle.base_values.specs.StoredValues.{half, lowest, highest, character_count, digits_number, text_number, in_range, text_within, bytes_within, stores, seeks};
ghost use Rattle.base_values.specs.Faults.{Answers};

use crate::duplicate::Duplicate;
use crate::kind::Kind;
use crate::shared::Shared;
use crate::text::Chars;
use crate::value::{Bytes, Value};
use crate::{StoreFault, Unfit};
use itoa::Buffer;
use std::alloc::{AllocError, Global};

/// The value that a column of the kind stores for this one, or why it refuses it. `nullable` says whether the column
/// may be null. A text becomes a number in an integer column, and a number a text or bytes in the others.
#[tactic(auto, unfolding(crate::specs::StoredValues::stores))]
pub fn store(alloc: Global, value: &Value, kind: Kind, nullable: bool) -> Result<Value, StoreFault>
    ensures { Answers (λ value. value) result (stores value.now kind nullable) }
{
    match value {
        Value::Null if nullable => Ok(Value::Null),
        Value::Null => Err(StoreFault::Refused(Unfit::Null)),
        Value::Num(number) => match kind {
            Kind::Int { bytes, unsigned } => number_in_range(*number, bytes, unsigned),
            Kind::VarChar(limit) => short_text(alloc, Buffer::new().format(*number), limit),
            Kind::VarBinary(limit) => {
                short_bytes(alloc, Buffer::new().format(*number).as_bytes(), limit)
            }
        },
        Value::Text(chars) => match kind {
            Kind::Int { bytes, unsigned } => match number_of(chars.as_str()) {
                // A text's number has its range tested like any number: '300' in TINYINT UNSIGNED is refused, and not cut.
                Some(number) => number_in_range(number, bytes, unsigned),
                None => Err(StoreFault::Refused(Unfit::Kind)),
            },
            Kind::VarChar(limit) => same_short_text(chars, limit),
            Kind::VarBinary(limit) => short_bytes(alloc, chars.as_str().as_bytes(), limit),
        },
        Value::Blob(blob) => match kind {
            Kind::Int { .. } | Kind::VarChar(_) => Err(StoreFault::Refused(Unfit::Kind)),
            Kind::VarBinary(limit) => same_short_bytes(blob, limit),
        },
    }
}

/// The value that a condition compares with a column of the kind, for a literal, or why there is none: what `store`
/// would store if the column had room for it. A null is refused, as nothing equals it.
#[tactic(auto, unfolding(crate::specs::StoredValues::seeks))]
pub fn seek(alloc: Global, value: &Value, kind: Kind) -> Result<Value, StoreFault>
    ensures { Answers (λ value. value) result (seeks value.now kind) }
{
    match value {
        Value::Null => Err(StoreFault::Refused(Unfit::Kind)),
        Value::Num(number) => match kind {
            Kind::Int { .. } => Ok(Value::Num(*number)),
            Kind::VarChar(_) => Ok(text_value(alloc, Buffer::new().format(*number))?),
            Kind::VarBinary(_) => {
                Ok(bytes_value(alloc, Buffer::new().format(*number).as_bytes())?)
            }
        },
        Value::Text(chars) => match kind {
            Kind::Int { .. } => match number_of(chars.as_str()) {
                Some(number) => Ok(Value::Num(number)),
                None => Err(StoreFault::Refused(Unfit::Kind)),
            },
            Kind::VarChar(_) => Ok(Value::Text(chars.copy()?)),
            Kind::VarBinary(_) => Ok(bytes_value(alloc, chars.as_str().as_bytes())?),
        },
        Value::Blob(blob) => match kind {
            Kind::Int { .. } | Kind::VarChar(_) => Err(StoreFault::Refused(Unfit::Kind)),
            Kind::VarBinary(_) => Ok(Value::Blob(blob.copy()?)),
        },
    }
}

#[tactic(auto, unfolding(crate::specs::StoredValues::in_range))]
fn number_in_range(number: i128, bytes: u8, unsigned: bool) -> Result<Value, StoreFault>
    ensures { Answers (λ value. value) result (in_range bytes unsigned number) }
{
    if lowest(bytes, unsigned) <= number && number <= highest(bytes, unsigned) {
        Ok(Value::Num(number))
    } else {
        Err(StoreFault::Refused(Unfit::Range))
    }
}

#[tactic(auto, unfolding(crate::specs::StoredValues::text_within))]
fn short_text(alloc: Global, text: &str, limit: u16) -> Result<Value, StoreFault>
    ensures { Answers (λ value. value) result (text_within limit text.now) }
{
    if character_count(text) > usize::from(limit) {
        return Err(StoreFault::Refused(Unfit::Length));
    }
    Ok(text_value(alloc, text)?)
}

/// The same text, which the value shares.
#[tactic(auto, unfolding(crate::specs::StoredValues::text_within))]
fn same_short_text(text: &Chars, limit: u16) -> Result<Value, StoreFault>
    ensures { Answers (λ value. value) result (text_within limit text.now) }
{
    if character_count(text.as_str()) > usize::from(limit) {
        return Err(StoreFault::Refused(Unfit::Length));
    }
    Ok(Value::Text(text.copy()?))
}

fn text_value(alloc: Global, text: &str) -> Result<Value, AllocError>
    ensures { IfOk result (λ value. value ≡ Value.Text text.now) }
{
    Ok(Value::Text(Chars::new(alloc, text)?))
}

#[tactic(auto, unfolding(crate::specs::StoredValues::bytes_within))]
fn short_bytes(alloc: Global, bytes: &[u8], limit: u16) -> Result<Value, StoreFault>
    ensures { Answers (λ value. value) result (bytes_within limit bytes.now) }
{
    if bytes.len() > usize::from(limit) {
        return Err(StoreFault::Refused(Unfit::Length));
    }
    Ok(bytes_value(alloc, bytes)?)
}

/// The same bytes, which the value shares.
#[tactic(auto, unfolding(crate::specs::StoredValues::bytes_within))]
fn same_short_bytes(bytes: &Bytes, limit: u16) -> Result<Value, StoreFault>
    ensures { Answers (λ value. value) result (bytes_within limit bytes.now) }
{
    if bytes.len() > usize::from(limit) {
        return Err(StoreFault::Refused(Unfit::Length));
    }
    Ok(Value::Blob(bytes.copy()?))
}

fn bytes_value(alloc: Global, bytes: &[u8]) -> Result<Value, AllocError>
    ensures { IfOk result (λ value. value ≡ Value.Blob bytes.now) }
{
    Ok(Value::Blob(Shared::from_vec(Vec::from_slice(alloc, bytes)?)?))
}

fn lowest(bytes: u8, unsigned: bool) -> i128
    ensures { result ≡ lowest bytes unsigned }
{
    if unsigned {
        0
    } else {
        -i128::from(half(bytes))
    }
}

fn highest(bytes: u8, unsigned: bool) -> i128
    ensures { result ≡ highest bytes unsigned }
{
    let half = half(bytes);
    i128::from(if unsigned { half - 1 + half } else { half - 1 })
}

/// How many numbers a signed kind of `bytes` bytes has below 0.
#[tactic(auto, unfolding(crate::specs::StoredValues::half))]
fn half(bytes: u8) -> u64
    ensures value { result ≡ half bytes }
    ensures some { 0 < result }
    ensures fits { result ≤ 2 ^ 63 }
{
    match bytes {
        1 => 1 << 7,
        2 => 1 << 15,
        3 => 1 << 23,
        4 => 1 << 31,
        // A number of bytes that no kind of MySQL's has counts as that of BIGINT, so that the function is total.
        _ => 1 << 63,
    }
}

/// How many characters a text has.
#[tactic(auto, unfolding(crate::specs::StoredValues::character_count))]
pub fn character_count(text: &str) -> usize
    ensures { result ≡ character_count text.now }
{
    text.as_bytes()
        .iter()
        .filter(|byte| **byte < 128 || **byte >= 192)
        .count()
}

/// The number that a text is: at most one sign and then 1 to 38 digits, which fit an `i128`.
#[tactic(auto, using(crate::proofs::TextNumbers::parsed))]
pub fn number_of(text: &str) -> Option<i128>
    ensures { result ≡ text_number text.now }
{
    if !is_number(text.as_bytes()) {
        return None;
    }
    text.parse::<i128>().ok()
}

#[tactic(auto, unfolding(crate::specs::StoredValues::text_number))]
fn is_number(text: &[u8]) -> bool
    ensures { result ≡ is_some (text_number text.now) }
{
    match text {
        [b'+' | b'-', digits @ ..] => are_digits(digits),
        digits => are_digits(digits),
    }
}

fn are_digits(text: &[u8]) -> bool
    ensures { result ≡ is_some (digits_number text.now) }
{
    !text.is_empty() && text.len() <= 38 && all_digits(text)
}

fn all_digits(text: &[u8]) -> bool
    ensures { result ≡ list_all is_ascii_digit text.now }
{
    text.iter().all(|byte| byte.is_ascii_digit())
}

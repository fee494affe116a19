//! Reads events from bytes.

ghost use Rattle.std.specs.Prelude.{◌≡◌, true, false, [], Some, IfOk, MatchOption};
ghost use Rattle.std.specs.Str.{is_utf8};
ghost use Rattle.server_log.specs.Decodings.{Reads, taken, sized_at, number_of, number_at, text_of, text_at, blob_at, value_at, with_value, values_at, name_of, name_at, count_at, one_row, two_rows, change_at, event_of, event_at, decoded};

use crate::fault::DecodeFault;
use base_values::{
    Change, Chars, Name, Row, RowEvent, Sequence, Shared, Value, Values, character_count,
};
use std::alloc::{AllocError, Global};

/// The first `n` bytes and those after them, or the fault where there are fewer.
#[tactic(auto, unfolding(crate::specs::Decodings::taken))]
fn taken(fault: DecodeFault, n: usize, bytes: &[u8]) -> Result<(&[u8], &[u8]), DecodeFault>
    ensures { Reads (λ parts. (parts.0.now, parts.1.now)) result (taken fault n bytes.now) }
{
    if n > bytes.len() {
        return Err(fault);
    }
    Ok(bytes.split_at(n))
}

/// The bytes after their length, and those after them.
#[tactic(auto, unfolding(crate::specs::Decodings::sized_at, crate::specs::Decodings::taken))]
fn sized_at(fault: DecodeFault, bytes: &[u8]) -> Result<(&[u8], &[u8]), DecodeFault>
    ensures { Reads (λ parts. (parts.0.now, parts.1.now)) result (sized_at fault bytes.now) }
{
    let (size, rest) = bytes.split_first_chunk::<4>().ok_or(fault)?;
    taken(fault, u32::from_be_bytes(*size) as usize, rest)
}

/// The number of two halves in two's complement, where a column can hold it.
#[tactic(auto, unfolding(crate::specs::Decodings::number_of))]
fn number_of(high: u64, low: u64) -> Option<Value>
    ensures { result ≡ number_of high low }
{
    let number = ((u128::from(high) << 64) + u128::from(low)).cast_signed();
    if number < i128::from(i64::MIN) || number > i128::from(u64::MAX) {
        return None;
    }
    Some(Value::Num(number))
}

/// A number, and what follows it.
#[tactic(auto, unfolding(crate::specs::Decodings::number_at, crate::specs::Decodings::taken))]
fn number_at(bytes: &[u8]) -> Result<(Option<Value>, &[u8]), DecodeFault>
    ensures { Reads (λ value. (value.0, value.1.now)) result (number_at bytes.now) }
{
    let (high, rest) = bytes
        .split_first_chunk::<8>()
        .ok_or(DecodeFault::BadLength)?;
    let (low, rest) = rest.split_first_chunk::<8>().ok_or(DecodeFault::BadLength)?;
    let number = number_of(u64::from_be_bytes(*high), u64::from_be_bytes(*low));
    Ok((number, rest))
}

/// The bytes as a text, where they are UTF-8.
fn utf8(bytes: &[u8]) -> Option<&str>
    ensures { MatchOption result (is_utf8 bytes.now ≡ false) (λ text. (text.now ≡ bytes.now) × (is_utf8 bytes.now ≡ true)) }
{
    match std::str::from_utf8(bytes) {
        Ok(text) => Some(text),
        Err(_) => None,
    }
}

/// The value of a text, where the bytes are one.
fn text_of(alloc: Global, bytes: &[u8]) -> Result<Option<Value>, AllocError>
    ensures { IfOk result (λ text. text ≡ text_of bytes.now) }
{
    match utf8(bytes) {
        Some(text) => Ok(Some(Value::Text(Chars::new(alloc, text)?))),
        None => Ok(None),
    }
}

/// A text, and what follows it.
#[tactic(auto, unfolding(crate::specs::Decodings::text_at))]
fn text_at(alloc: Global, bytes: &[u8]) -> Result<(Option<Value>, &[u8]), DecodeFault>
    ensures { Reads (λ value. (value.0, value.1.now)) result (text_at bytes.now) }
{
    let (text, rest) = sized_at(DecodeFault::BadLength, bytes)?;
    Ok((text_of(alloc, text)?, rest))
}

/// Bytes that are a value, and what follows them.
#[tactic(auto, unfolding(crate::specs::Decodings::blob_at))]
fn blob_at(alloc: Global, bytes: &[u8]) -> Result<(Option<Value>, &[u8]), DecodeFault>
    ensures { Reads (λ value. (value.0, value.1.now)) result (blob_at bytes.now) }
{
    let (blob, rest) = sized_at(DecodeFault::BadLength, bytes)?;
    let blob = Shared::from_vec(Vec::from_slice(alloc, blob)?)?;
    Ok((Some(Value::Blob(blob)), rest))
}

/// A value, and what follows it.
#[tactic(auto, unfolding(crate::specs::Decodings::value_at))]
fn value_at(alloc: Global, bytes: &[u8]) -> Result<(Option<Value>, &[u8]), DecodeFault>
    ensures { Reads (λ value. (value.0, value.1.now)) result (value_at bytes.now) }
{
    let (kind, bytes) = bytes.split_first().ok_or(DecodeFault::BadLength)?;
    match *kind {
        0 => Ok((Some(Value::Null), bytes)),
        1 => number_at(bytes),
        2 => text_at(alloc, bytes),
        3 => blob_at(alloc, bytes),
        _ => Err(DecodeFault::BadValue),
    }
}

/// The values so far with one more, unless one of them is none.
fn with_value(values: Option<Values>, value: Option<Value>) -> Result<Option<Values>, AllocError>
    ensures { IfOk result (λ more. more ≡ with_value values value) }
{
    match (values, value) {
        (Some(mut values), Some(value)) => {
            values.push(value)?;
            Ok(Some(values))
        }
        _ => Ok(None),
    }
}

/// The row of the values.
fn shared(values: Option<Values>) -> Result<Option<Row>, AllocError>
    ensures { IfOk result (λ row. row ≡ values) }
{
    Ok(match values {
        Some(values) => Some(Shared::from_sequence(values)?),
        None => None,
    })
}

/// `count` values, and what follows them.
#[tactic(auto, using(crate::proofs::ReadValues::steps))]
fn values_at(alloc: Global, count: u8, bytes: &[u8]) -> Result<(Option<Row>, &[u8]), DecodeFault>
    ensures { Reads (λ values. (values.0, values.1.now)) result (values_at (Some []) count bytes.now) }
{
    let mut values = Some(Sequence::new(alloc));
    let mut rest = bytes;
    let mut left = count;
    while left > 0 {
        match value_at(alloc, rest) {
            Ok((value, following)) => {
                values = with_value(values, value)?;
                rest = following;
                left -= 1;
            }
            Err(fault) => return Err(fault),
        }
    }
    Ok((shared(values)?, rest))
}

/// The name that bytes are, where it has at most 64 characters.
fn name_of(alloc: Global, bytes: &[u8]) -> Result<Option<Name>, AllocError>
    ensures { IfOk result (λ name. name ≡ name_of bytes.now) }
{
    let Some(text) = utf8(bytes) else {
        return Ok(None);
    };
    if character_count(text) > 64 {
        return Ok(None);
    }
    Ok(Some(Name::new(alloc, text)?))
}

/// A name after its length, and what follows it.
#[tactic(auto, unfolding(crate::specs::Decodings::name_at))]
fn name_at(alloc: Global, bytes: &[u8]) -> Result<(Option<Name>, &[u8]), DecodeFault>
    ensures { Reads (λ name. (name.0, name.1.now)) result (name_at bytes.now) }
{
    let (size, bytes) = bytes.split_first().ok_or(DecodeFault::BadLength)?;
    if *size == 0 {
        return Err(DecodeFault::BadLength);
    }
    let (name, rest) = taken(DecodeFault::BadLength, usize::from(*size), bytes)?;
    Ok((name_of(alloc, name)?, rest))
}

/// The number of columns, and what follows it.
#[tactic(auto, unfolding(crate::specs::Decodings::count_at))]
fn count_at(bytes: &[u8]) -> Result<(u8, &[u8]), DecodeFault>
    ensures { Reads (λ count. (count.0, count.1.now)) result (count_at bytes.now) }
{
    let (count, rest) = bytes.split_first().ok_or(DecodeFault::BadLength)?;
    if *count < 1 || *count > 64 {
        return Err(DecodeFault::BadLength);
    }
    Ok((*count, rest))
}

/// The change of a tag that is no UPDATE's.
fn one_row(tag: u8, row: Option<Row>) -> Option<Change>
    ensures { result ≡ one_row tag row }
{
    let row = row?;
    Some(if tag == 1 {
        Change::Write(row)
    } else {
        Change::Delete(row)
    })
}

/// The change of an UPDATE.
fn two_rows(before: Option<Row>, after: Option<Row>) -> Option<Change>
    ensures { result ≡ two_rows before after }
{
    match (before, after) {
        (Some(before), Some(after)) => Some(Change::Update(before, after)),
        _ => None,
    }
}

/// The change of a tag, with this many columns, and what follows it.
#[tactic(auto, unfolding(crate::specs::Decodings::change_at))]
fn change_at(
    alloc: Global,
    tag: u8,
    count: u8,
    bytes: &[u8],
) -> Result<(Option<Change>, &[u8]), DecodeFault>
    ensures { Reads (λ change. (change.0, change.1.now)) result (change_at tag count bytes.now) }
{
    let (first, rest) = values_at(alloc, count, bytes)?;
    if tag != 2 {
        return Ok((one_row(tag, first), rest));
    }
    let (second, rest) = values_at(alloc, count, rest)?;
    Ok((two_rows(first, second), rest))
}

/// The event of a name and a change, where nothing follows them.
fn event_of(
    name: Option<Name>,
    change: Option<Change>,
    rest: &[u8],
) -> Result<RowEvent, DecodeFault>
    ensures { Reads (λ event. event) result (event_of name change rest.now) }
{
    if !rest.is_empty() {
        return Err(DecodeFault::BadLength);
    }
    match (name, change) {
        (Some(table), Some(change)) => Ok(RowEvent { table, change }),
        _ => Err(DecodeFault::BadValue),
    }
}

/// The event whose body this is.
#[tactic(auto, unfolding(crate::specs::Decodings::event_at))]
fn event_at(alloc: Global, tag: u8, body: &[u8]) -> Result<RowEvent, DecodeFault>
    ensures { Reads (λ event. event) result (event_at tag body.now) }
{
    let (name, rest) = name_at(alloc, body)?;
    let (count, rest) = count_at(rest)?;
    let (change, rest) = change_at(alloc, tag, count, rest)?;
    event_of(name, change, rest)
}

/// The event that bytes begin with, and how many of them it takes. It is refused as `Cut` where the bytes end within
/// it, else as `BadTag`, else as `BadLength`, else as `BadValue`.
#[tactic(auto, unfolding(crate::specs::Decodings::decoded))]
pub fn decode(alloc: Global, bytes: &[u8]) -> Result<(RowEvent, usize), DecodeFault>
    ensures { Reads (λ event. event) result (decoded bytes.now) }
{
    let (tag, rest) = bytes.split_first().ok_or(DecodeFault::Cut)?;
    let (body, _) = sized_at(DecodeFault::Cut, rest)?;
    if *tag < 1 || *tag > 3 {
        return Err(DecodeFault::BadTag);
    }
    let event = event_at(alloc, *tag, body)?;
    Ok((event, body.len() + 5))
}

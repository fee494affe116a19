//! Keys of rows, and rows in order of their keys.

use base_values::gho_schema::{KeyedRows, Places, PutFault, key_of};
use base_values::{Key, Row, Sequence, Shared, Text, print_row};
use std::alloc::Global;
use test_lines::{CallFault, place_of, row_of, text_of};

/// Places with commas between them.
fn places_of(alloc: Global, text: &str) -> Result<Places, CallFault> {
    let mut places = Sequence::new(alloc);
    for place in text.split(", ") {
        places.push(place_of(place)?)?;
    }
    Ok(Shared::from_sequence(places)?)
}

/// The values at places of a row, of a text each.
fn key_at(alloc: Global, places: &str, row: &str) -> Result<Key, CallFault> {
    let places = places_of(alloc, places)?;
    let row = row_of(alloc, row)?;
    Ok(key_of(alloc, places.as_slice(), row.as_slice())?)
}

/// What is printed of rows, one after another.
fn reported_rows(alloc: Global, rows: &[Row]) -> Result<Text, CallFault> {
    let mut output = Text::new(alloc);
    for row in rows {
        print_row(row.as_slice(), &mut output)?;
    }
    Ok(output)
}

/// A row's values at places, as `1, 0: 5, 2`.
fn reported_key(alloc: Global, input: &str) -> Result<Text, CallFault> {
    let (places, row) = input.split_once(": ").ok_or(CallFault::Unread)?;
    let key = key_at(alloc, places, row)?;
    let mut output = Text::new(alloc);
    print_row(key.as_slice(), &mut output)?;
    Ok(output)
}

/// Puts rows among others until one has the key of another; whether none has.
fn put_each(alloc: Global, keyed: &mut KeyedRows, rows: &str) -> Result<bool, CallFault> {
    for row in rows.split("; ") {
        match keyed.put(alloc, row_of(alloc, row)?) {
            Ok(()) => {}
            Err(PutFault::Repeated) => return Ok(false),
            Err(PutFault::Memory) => return Err(CallFault::Memory),
        }
    }
    Ok(true)
}

/// Rows that are put among one another, as `1: 1, 10; 9, -3`, in order of their keys.
fn put_rows(alloc: Global, input: &str) -> Result<Text, CallFault> {
    let (places, rows) = input.split_once(": ").ok_or(CallFault::Unread)?;
    let mut keyed = KeyedRows::new(alloc, places_of(alloc, places)?);
    if put_each(alloc, &mut keyed, rows)? {
        reported_rows(alloc, keyed.into_rows(alloc)?.as_slice())
    } else {
        text_of(alloc, "repeated")
    }
}

/// The answer of a call about keys.
pub fn answer(alloc: Global, call: &str, input: &str) -> Result<Text, CallFault> {
    match call {
        "of" => reported_key(alloc, input),
        "order" => put_rows(alloc, input),
        _ => Err(CallFault::Unread),
    }
}

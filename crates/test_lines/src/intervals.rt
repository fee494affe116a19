//! Spans of whole numbers, written as intervals: `(1,3]` has 2 and 3, and two dots stand for no end.

use crate::reader::{CallFault, number_of};
use base_values::{Bound, Key, Sequence, Shared, Span, Value};
use std::alloc::Global;

/// The key of one number.
pub fn key_of(alloc: Global, number: &str) -> Result<Key, CallFault> {
    let number = number_of(number)?;
    let mut key = Sequence::new(alloc);
    key.push(Value::Num(number))?;
    Ok(Shared::from_sequence(key)?)
}

fn bound_of(alloc: Global, is_open: bool, number: &str) -> Result<Bound, CallFault> {
    if number == ".." {
        return Ok(Bound::Free);
    }
    let key = key_of(alloc, number)?;
    Ok(if is_open {
        Bound::Open(key)
    } else {
        Bound::Closed(key)
    })
}

fn low_of(alloc: Global, text: &str) -> Result<Bound, CallFault> {
    match text.strip_prefix('(') {
        Some(number) => bound_of(alloc, true, number),
        None => bound_of(
            alloc,
            false,
            text.strip_prefix('[').ok_or(CallFault::Unread)?,
        ),
    }
}

fn high_of(alloc: Global, text: &str) -> Result<Bound, CallFault> {
    match text.strip_suffix(')') {
        Some(number) => bound_of(alloc, true, number),
        None => bound_of(
            alloc,
            false,
            text.strip_suffix(']').ok_or(CallFault::Unread)?,
        ),
    }
}

/// The span of an interval.
pub fn span_of(alloc: Global, text: &str) -> Result<Span, CallFault> {
    let (low, high) = text.split_once(',').ok_or(CallFault::Unread)?;
    let low = low_of(alloc, low)?;
    let high = high_of(alloc, high)?;
    Ok(Span { low, high })
}

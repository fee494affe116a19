//! Spans of whole numbers: whether one has a number, and whether two meet.

use base_values::Text;
use std::alloc::Global;
use test_lines::{CallFault, key_of, span_of, yes_or_no};

fn has(alloc: Global, span: &str, number: &str) -> Result<bool, CallFault> {
    let span = span_of(alloc, span)?;
    let key = key_of(alloc, number)?;
    Ok(span.has(&key))
}

fn meet(alloc: Global, a: &str, b: &str) -> Result<bool, CallFault> {
    let a = span_of(alloc, a)?;
    let b = span_of(alloc, b)?;
    Ok(a.meets(&b))
}

/// The answer of a call about spans: whether one has a number, or whether two meet, named in either order.
pub fn answer(alloc: Global, call: &str, input: &str) -> Result<Text, CallFault> {
    let (first, second) = input.split_once(' ').ok_or(CallFault::Unread)?;
    match call {
        "has" => yes_or_no(alloc, has(alloc, first, second)?),
        "meets" => yes_or_no(alloc, meet(alloc, first, second)?),
        _ => Err(CallFault::Unread),
    }
}

//! What columns store, what conditions seek, how values and keys are ordered, and their literals.

use base_values::{Key, Row, StoreFault, Text, Value, print_row, print_value, seek, store};
use std::alloc::Global;
use std::cmp::Ordering;
use test_lines::{CallFault, kind_of, row_of, text_of, value_of, yes_or_no};

fn reported_value(alloc: Global, value: &Value) -> Result<Text, CallFault> {
    let mut output = Text::new(alloc);
    print_value(value, &mut output)?;
    Ok(output)
}

/// What is printed of a row.
pub fn reported_row(alloc: Global, row: &Row) -> Result<Text, CallFault> {
    let mut output = Text::new(alloc);
    print_row(row.as_slice(), &mut output)?;
    Ok(output)
}

fn reported_refusal(alloc: Global, number: u16) -> Result<Text, CallFault> {
    let mut output = text_of(alloc, "refused ")?;
    output.push_number(i128::from(number))?;
    Ok(output)
}

/// The literal of what is stored or wanted, or the refusal's number.
fn reported_stored(alloc: Global, answer: Result<Value, StoreFault>) -> Result<Text, CallFault> {
    match answer {
        Ok(value) => reported_value(alloc, &value),
        Err(StoreFault::Refused(reason)) => reported_refusal(alloc, reason.number()),
        Err(StoreFault::Memory) => Err(CallFault::Memory),
    }
}

/// What a column of a kind stores, of an input as `VARCHAR 3: 'abc'`.
fn stored(alloc: Global, input: &str, nullable: bool) -> Result<Text, CallFault> {
    let (kind, value) = input.split_once(": ").ok_or(CallFault::Unread)?;
    let kind = kind_of(kind)?;
    let value = value_of(alloc, value)?;
    reported_stored(alloc, store(alloc, &value, kind, nullable))
}

/// What is wanted in a column of a kind.
fn sought(alloc: Global, input: &str) -> Result<Text, CallFault> {
    let (kind, value) = input.split_once(": ").ok_or(CallFault::Unread)?;
    let kind = kind_of(kind)?;
    let value = value_of(alloc, value)?;
    reported_stored(alloc, seek(alloc, &value, kind))
}

/// The word for how a key compares with another.
fn order_of(key: &Key, other: &Key) -> &'static str {
    match (key.cmp(other), other.cmp(key)) {
        (Ordering::Less, Ordering::Greater) => "less",
        (Ordering::Equal, Ordering::Equal) => "equal",
        (Ordering::Greater, Ordering::Less) => "greater",
        _ => "unordered",
    }
}

/// How the first of two keys compares with the second, as `1, 'b' : 2, 'a'`.
fn compared(alloc: Global, input: &str) -> Result<Text, CallFault> {
    let (key, other) = input.split_once(" : ").ok_or(CallFault::Unread)?;
    let key = row_of(alloc, key)?;
    let other = row_of(alloc, other)?;
    text_of(alloc, order_of(&key, &other))
}

/// Whether each value comes before all that stand after it.
fn is_rising(values: &[Value]) -> bool {
    let mut rest = values;
    while let [first, later @ ..] = rest {
        let is_least = later.iter().all(|value| first < value && value > first);
        if !is_least || first != first {
            return false;
        }
        rest = later;
    }
    true
}

fn rising(alloc: Global, input: &str) -> Result<Text, CallFault> {
    let row = row_of(alloc, input)?;
    yes_or_no(alloc, is_rising(row.as_slice()))
}

fn printed(alloc: Global, input: &str) -> Result<Text, CallFault> {
    let value = value_of(alloc, input)?;
    reported_value(alloc, &value)
}

fn printed_row(alloc: Global, input: &str) -> Result<Text, CallFault> {
    let row = row_of(alloc, input)?;
    reported_row(alloc, &row)
}

/// The answer of a call about values.
pub fn answer(alloc: Global, call: &str, input: &str) -> Result<Text, CallFault> {
    match call {
        "store" => stored(alloc, input, false),
        "store nullable" => stored(alloc, input, true),
        "seek" => sought(alloc, input),
        "compare" => compared(alloc, input),
        "rising" => rising(alloc, input),
        "print" => printed(alloc, input),
        "print row" => printed_row(alloc, input),
        _ => Err(CallFault::Unread),
    }
}

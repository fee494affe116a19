//! Encodes events. Room for an event's bytes is made first, and to put them there takes no memory.

ghost use Rattle.std.specs.Prelude.{◌≡◌, ◌<◌, ◌≤◌, ◌+◌, ◌^◌, ◌++◌, length, vec_len, vec_capacity, is_ok, if◌then◌else◌, OnOk, OnErr};
ghost use Rattle.std.specs.List.{AllByRecursion};
ghost use Rattle.std.specs.Str.{IsUtf8};
ghost use Rattle.server_log.specs.Encodings.{length_bytes, half_bytes, number_bytes, sized, value_bytes, values_bytes, tag_of, columns_of, values_of, body_of, encoded, IsEncodable};
ghost use Rattle.server_log.specs.Laws.{IsHeld, IsWritten};

use base_values::{Change, RowEvent, Sequence, Value};
use std::alloc::{AllocError, Global};
use std::mem;

/// How many bytes the value is encoded in.
#[tactic(auto, using(crate::proofs::Sizes::of_value))]
fn cost_of_value(value: &Value) -> u64
    requires { length (value_bytes value.now) < 2 ^ 32 }
    ensures { result ≡ length (value_bytes value.now) }
{
    match value {
        Value::Null => 1,
        Value::Num(_) => 17,
        Value::Text(text) => text.as_str().len() as u64 + 5,
        Value::Blob(blob) => blob.len() as u64 + 5,
    }
}

/// How many bytes the values are encoded in.
#[tactic(auto, using(crate::proofs::Sizes::of_values))]
fn cost_of_row(row: &[Value]) -> u64
    requires { length (values_bytes row.now) < 2 ^ 32 }
    ensures { result ≡ length (values_bytes row.now) }
{
    let mut cost = 0;
    for value in row {
        cost += cost_of_value(value);
    }
    cost
}

/// How many bytes the values of a change are encoded in.
#[tactic(auto, using(crate::proofs::Sizes::of_changes))]
fn cost_of_change(change: &Change) -> u64
    requires { length (values_bytes (values_of change.now)) < 2 ^ 32 }
    ensures { result ≡ length (values_bytes (values_of change.now)) }
{
    match change {
        Change::Write(row) | Change::Delete(row) => cost_of_row(row.as_slice()),
        Change::Update(before, after) => {
            cost_of_row(before.as_slice()) + cost_of_row(after.as_slice())
        }
    }
}

/// How many bytes the event is encoded in.
#[tactic(auto, using(crate::proofs::Sizes::of_events))]
pub fn cost(event: &RowEvent) -> u64
    requires { IsEncodable event.now }
    ensures { result ≡ length (encoded event.now) }
{
    cost_of_change(&event.change) + event.table.as_str().len() as u64 + 7
}

/// Puts bytes where there is room.
fn put(into: &mut Vec<u8>, bytes: &[u8])
    requires { vec_len into.old + length bytes.now ≤ vec_capacity into.old }
    ensures items { into.new.items ≡ into.old.items ++ bytes.now }
    ensures len { vec_len into.new ≡ vec_len into.old + length bytes.now }
    ensures capacity { vec_capacity into.old ≤ vec_capacity into.new }
{
    match into.extend_from_slice(bytes) {
        Ok(()) => {}
        Err(_) => unreachable!(),
    }
}

/// Puts a length.
#[tactic(auto, unfolding(crate::specs::Encodings::length_bytes))]
fn put_length(into: &mut Vec<u8>, len: usize)
    requires short { len < 2 ^ 32 }
    requires room { vec_len into.old + 4 ≤ vec_capacity into.old }
    ensures items { into.new.items ≡ into.old.items ++ length_bytes len }
    ensures len { vec_len into.new ≡ vec_len into.old + 4 }
    ensures capacity { vec_capacity into.old ≤ vec_capacity into.new }
{
    put(into, &(len as u32).to_be_bytes());
}

/// Puts bytes after their length.
#[tactic(auto, using(crate::proofs::Encodings::of_changes), unfolding(crate::specs::Encodings::sized))]
fn put_sized(into: &mut Vec<u8>, bytes: &[u8])
    requires short { length bytes.now < 2 ^ 32 }
    requires room { vec_len into.old + length bytes.now + 4 ≤ vec_capacity into.old }
    ensures items { into.new.items ≡ into.old.items ++ sized bytes.now }
    ensures len { vec_len into.new ≡ vec_len into.old + length bytes.now + 4 }
    ensures capacity { vec_capacity into.old ≤ vec_capacity into.new }
{
    put_length(into, bytes.len());
    put(into, bytes);
}

/// How many numbers the low half of a number's bytes tells apart.
const HALF: u128 = 0x1_0000_0000_0000_0000;

/// Puts half of a number.
#[tactic(auto, unfolding(crate::specs::Encodings::half_bytes))]
fn put_half(into: &mut Vec<u8>, half: u64)
    requires { vec_len into.old + 8 ≤ vec_capacity into.old }
    ensures items { into.new.items ≡ into.old.items ++ half_bytes half }
    ensures len { vec_len into.new ≡ vec_len into.old + 8 }
    ensures capacity { vec_capacity into.old ≤ vec_capacity into.new }
{
    put(into, &half.to_be_bytes());
}

/// Puts a number.
#[tactic(auto, using(crate::proofs::Encodings::of_changes), unfolding(crate::specs::Encodings::number_bytes))]
fn put_number(into: &mut Vec<u8>, number: i128)
    requires { vec_len into.old + 16 ≤ vec_capacity into.old }
    ensures items { into.new.items ≡ into.old.items ++ number_bytes number }
    ensures len { vec_len into.new ≡ vec_len into.old + 16 }
    ensures capacity { vec_capacity into.old ≤ vec_capacity into.new }
{
    let number = number.cast_unsigned();
    put_half(into, (number / HALF) as u64);
    put_half(into, (number % HALF) as u64);
}

/// Puts a value.
#[tactic(auto, using(crate::proofs::Sizes::of_value), unfolding(crate::specs::Encodings::value_bytes))]
fn put_value(into: &mut Vec<u8>, value: &Value)
    requires short { length (value_bytes value.now) < 2 ^ 32 }
    requires room { vec_len into.old + length (value_bytes value.now) ≤ vec_capacity into.old }
    ensures items { into.new.items ≡ into.old.items ++ value_bytes value.now }
    ensures len { vec_len into.new ≡ vec_len into.old + length (value_bytes value.now) }
    ensures capacity { vec_capacity into.old ≤ vec_capacity into.new }
    ensures held { IsHeld value.now }
{
    match value {
        Value::Null => into.push_reserved(0),
        Value::Num(number) => {
            into.push_reserved(1);
            put_number(into, *number);
        }
        Value::Text(text) => {
            into.push_reserved(2);
            let text = text.as_str();
            put_sized(into, text.as_bytes());
        }
        Value::Blob(blob) => {
            into.push_reserved(3);
            put_sized(into, blob.as_slice());
        }
    }
}

/// Puts values, one after another.
#[tactic(auto, using(crate::proofs::Sizes::of_values))]
fn put_values(into: &mut Vec<u8>, values: &[Value])
    requires short { length (values_bytes values.now) < 2 ^ 32 }
    requires room { vec_len into.old + length (values_bytes values.now) ≤ vec_capacity into.old }
    ensures items { into.new.items ≡ into.old.items ++ values_bytes values.now }
    ensures len { vec_len into.new ≡ vec_len into.old + length (values_bytes values.now) }
    ensures capacity { vec_capacity into.old ≤ vec_capacity into.new }
    ensures held { AllByRecursion IsHeld values.now }
{
    for value in values {
        put_value(into, value);
    }
}

/// Puts the values of a change.
#[tactic(auto, using(crate::proofs::Encodings::of_changes))]
fn put_change(into: &mut Vec<u8>, change: &Change)
    requires short { length (values_bytes (values_of change.now)) < 2 ^ 32 }
    requires room { vec_len into.old + length (values_bytes (values_of change.now)) ≤ vec_capacity into.old }
    ensures items { into.new.items ≡ into.old.items ++ values_bytes (values_of change.now) }
    ensures len { vec_len into.new ≡ vec_len into.old + length (values_bytes (values_of change.now)) }
    ensures capacity { vec_capacity into.old ≤ vec_capacity into.new }
    ensures held { AllByRecursion IsHeld (values_of change.now) }
{
    match change {
        Change::Write(row) | Change::Delete(row) => put_values(into, row.as_slice()),
        Change::Update(before, after) => {
            put_values(into, before.as_slice());
            put_values(into, after.as_slice());
        }
    }
}

/// The number of a change's kind.
fn tag_of(change: &Change) -> u8
    ensures { result ≡ tag_of change.now }
{
    match change {
        Change::Write(_) => 1,
        Change::Update(_, _) => 2,
        Change::Delete(_) => 3,
    }
}

/// How many values each row of the change has.
fn columns_of(change: &Change) -> usize
    ensures { result ≡ columns_of change.now }
{
    match change {
        Change::Write(row) | Change::Update(row, _) | Change::Delete(row) => row.len(),
    }
}

/// How many bytes the event's body has.
#[tactic(auto, using(crate::proofs::Sizes::of_events))]
fn body_size(event: &RowEvent) -> usize
    requires { IsEncodable event.now }
    ensures { result ≡ length (body_of event.now) }
{
    (cost(event) - 5) as usize
}

/// Puts the event's body where there is room.
#[tactic(auto, using(crate::proofs::Sizes::of_events), unfolding(crate::specs::Encodings::body_of))]
fn put_body(into: &mut Vec<u8>, event: &RowEvent)
    requires encodable { IsEncodable event.now }
    requires room { vec_len into.old + length (body_of event.now) ≤ vec_capacity into.old }
    ensures items { into.new.items ≡ into.old.items ++ body_of event.now }
    ensures len { vec_len into.new ≡ vec_len into.old + length (body_of event.now) }
    ensures capacity { vec_capacity into.old ≤ vec_capacity into.new }
    ensures name { IsUtf8 event.now.table }
    ensures held { AllByRecursion IsHeld (values_of event.now.change) }
{
    let text = event.table.as_str();
    let name = text.as_bytes();
    into.push_reserved(name.len() as u8);
    put(into, name);
    into.push_reserved(columns_of(&event.change) as u8);
    put_change(into, &event.change);
}

/// Puts the event's bytes where there is room.
#[tactic(auto, using(crate::proofs::Sizes::of_events, crate::proofs::Encodings::of_changes), unfolding(crate::specs::Encodings::encoded, crate::specs::Encodings::sized))]
pub(crate) fn put_event(into: &mut Vec<u8>, event: &RowEvent)
    requires encodable { IsEncodable event.now }
    requires room { vec_len into.old + length (encoded event.now) ≤ vec_capacity into.old }
    ensures items { into.new.items ≡ into.old.items ++ encoded event.now }
    ensures len { vec_len into.new ≡ vec_len into.old + length (encoded event.now) }
    ensures capacity { vec_capacity into.old ≤ vec_capacity into.new }
    ensures written { IsWritten event.now }
{
    into.push_reserved(tag_of(&event.change));
    put_length(into, body_size(event));
    put_body(into, event);
}

/// Puts the event's bytes after others, once there is room for them.
fn extend(into: &mut Vec<u8>, event: &RowEvent) -> Result<(), AllocError>
    requires { IsEncodable event.now }
    ensures { into.new.items ≡ (if is_ok result then into.old.items ++ encoded event.now else into.old.items) }
{
    into.reserve(cost(event) as usize)?;
    put_event(into, event);
    Ok(())
}

/// Adds the event's bytes at the end.
pub fn encode(alloc: Global, event: &RowEvent, into: &mut Sequence<u8>) -> Result<(), AllocError>
    requires { IsEncodable event.now }
    ensures ok { OnOk result (into.new ≡ into.old ++ encoded event.now) }
    ensures err { OnErr result (into.new ≡ into.old) }
{
    let mut bytes = mem::replace(into, Sequence::new(alloc)).into_vec();
    let added = extend(&mut bytes, event);
    *into = Sequence::from_vec(bytes);
    added
}

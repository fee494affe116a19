//! Row events and their bytes.

use base_values::{Change, RowEvent, Sequence, Text, print_row};
use server_log::{DecodeFault, cost, decode, encode};
use std::alloc::{AllocError, Global};
use test_lines::{CallFault, bytes_of, text_of};

/// An event that was read, how many bytes it took, what it costs, and its bytes again after a byte that was there.
#[derive(Drop)]
struct Reencoded {
    event: RowEvent,
    taken: usize,
    cost: u64,
    bytes: Sequence<u8>,
}

fn reencode(alloc: Global, bytes: &[u8]) -> Result<Reencoded, DecodeFault> {
    let (event, taken) = decode(alloc, bytes)?;
    let cost = cost(&event);
    let mut into = Sequence::new(alloc);
    into.push(7)?;
    encode(alloc, &event, &mut into)?;
    Ok(Reencoded {
        event,
        taken,
        cost,
        bytes: into,
    })
}

/// Whether the event took all the bytes, and is encoded in just these.
fn is_same(reread: &Reencoded, bytes: &[u8]) -> bool {
    let [7, encoded @ ..] = reread.bytes.as_slice() else {
        return false;
    };
    reread.taken == bytes.len() && reread.cost == bytes.len() as u64 && encoded == bytes
}

fn push_change(output: &mut Text, change: &Change) -> Result<(), AllocError> {
    match change {
        Change::Write(row) => {
            output.push_str("write ")?;
            print_row(row.as_slice(), output)
        }
        Change::Update(before, after) => {
            output.push_str("update ")?;
            print_row(before.as_slice(), output)?;
            print_row(after.as_slice(), output)
        }
        Change::Delete(row) => {
            output.push_str("delete ")?;
            print_row(row.as_slice(), output)
        }
    }
}

/// Adds what the event does, and to which table.
pub fn push_event(output: &mut Text, event: &RowEvent) -> Result<(), AllocError> {
    push_change(output, &event.change)?;
    output.push_str(" of ")?;
    output.push_str(event.table.as_str())
}

fn reported_event(alloc: Global, event: &RowEvent) -> Result<Text, CallFault> {
    let mut output = Text::new(alloc);
    push_event(&mut output, event)?;
    Ok(output)
}

/// The event that was read of bytes, if they are its encoding.
fn reported_reread(alloc: Global, reread: &Reencoded, bytes: &[u8]) -> Result<Text, CallFault> {
    if is_same(reread, bytes) {
        reported_event(alloc, &reread.event)
    } else {
        text_of(alloc, "is encoded otherwise")
    }
}

fn reported_fault(alloc: Global, fault: DecodeFault) -> Result<Text, CallFault> {
    match fault {
        DecodeFault::Cut => text_of(alloc, "cut"),
        DecodeFault::BadTag => text_of(alloc, "bad tag"),
        DecodeFault::BadLength => text_of(alloc, "bad length"),
        DecodeFault::BadValue => text_of(alloc, "bad value"),
        DecodeFault::Memory => Err(CallFault::Memory),
    }
}

/// The event of bytes that are its encoding, or the fault of others.
pub fn decoded(alloc: Global, input: &str) -> Result<Text, CallFault> {
    let bytes = bytes_of(alloc, input)?;
    match reencode(alloc, bytes.as_slice()) {
        Ok(reread) => reported_reread(alloc, &reread, bytes.as_slice()),
        Err(fault) => reported_fault(alloc, fault),
    }
}

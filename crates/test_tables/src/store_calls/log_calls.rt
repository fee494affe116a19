//! Calls on one log that watches the table `t`, with semicolons between them: `add` with how often and an event's bytes,
//! `segments` for how many bytes each has, `end`, `after` with a position, a limit and a table, and `unread` with a position and
//! a table.

ghost use Rattle.std.specs.Prelude.{IfOk};
ghost use Rattle.server_log.specs.Encodings.{IsEncodable};

use crate::store_calls::events::push_event;
use base_values::{Name, Names, RowEvent, Sequence, Text};
use server_log::{DecodeFault, Log, cost, decode};
use server_model::Answer;
use std::alloc::{AllocError, Global};
use std::slice::from_ref;
use test_lines::{CallFault, bytes_of, say, unsigned_of};

/// The tables of one name.
fn table_of(alloc: Global, name: &str) -> Result<Names, AllocError> {
    let mut tables = Sequence::new(alloc);
    tables.push(Name::new(alloc, name)?)?;
    Ok(tables)
}

/// Makes room for an event and appends it.
fn append(log: &mut Log, event: &RowEvent) -> Result<(), CallFault>
    requires { IsEncodable event.now }
{
    log.reserve(cost(event))?;
    log.append(from_ref(event));
    Ok(())
}

/// The event that bytes begin with.
fn event_of(alloc: Global, bytes: &[u8]) -> Result<RowEvent, CallFault>
    ensures { IfOk result IsEncodable }
{
    match decode(alloc, bytes) {
        Ok((event, _)) => Ok(event),
        Err(DecodeFault::Memory) => Err(CallFault::Memory),
        Err(_) => Err(CallFault::Unread),
    }
}

fn add(alloc: Global, log: &mut Log, input: &str) -> Result<(), CallFault> {
    let (times, bytes) = input.split_once(' ').ok_or(CallFault::Unread)?;
    let bytes = bytes_of(alloc, bytes)?;
    for _ in 0..unsigned_of(times)? {
        append(log, &event_of(alloc, bytes.as_slice())?)?;
    }
    Ok(())
}

/// Says how many bytes each segment has.
fn say_segments(log: &Log, output: &mut Text) -> Result<(), CallFault> {
    say(output, "segments")?;
    for n in 0..log.segments() {
        output.push_str(" ")?;
        output.push_number(log.segment(n).len() as i128)?;
    }
    Ok(())
}

fn say_answer(output: &mut Text, answer: &Answer) -> Result<(), CallFault> {
    let Answer::Events { events, next } = answer else {
        return Err(CallFault::Unread);
    };
    say(output, "")?;
    for event in events.as_slice() {
        push_event(output, event)?;
        output.push_str(", ")?;
    }
    output.push_str("next ")?;
    output.push_number(i128::from(*next))?;
    Ok(())
}

fn say_after(alloc: Global, log: &Log, input: &str, output: &mut Text) -> Result<(), CallFault> {
    let (position, rest) = input.split_once(' ').ok_or(CallFault::Unread)?;
    let (limit, table) = rest.split_once(' ').ok_or(CallFault::Unread)?;
    let position = u64::from(unsigned_of(position)?);
    let limit = unsigned_of(limit)?;
    if limit == 0 {
        return Err(CallFault::Unread);
    }
    let answer = log.after(position, limit, &table_of(alloc, table)?)?;
    say_answer(output, &answer)
}

fn say_unread(alloc: Global, log: &Log, input: &str, output: &mut Text) -> Result<(), CallFault> {
    let (position, table) = input.split_once(' ').ok_or(CallFault::Unread)?;
    let position = u64::from(unsigned_of(position)?);
    let unread = log.unread(position, &table_of(alloc, table)?);
    say(output, "unread ")?;
    output.push_number(i128::from(unread))?;
    Ok(())
}

fn say_end(log: &Log, output: &mut Text) -> Result<(), CallFault> {
    say(output, "end ")?;
    output.push_number(i128::from(log.end()))?;
    Ok(())
}

fn take(alloc: Global, log: &mut Log, call: &str, output: &mut Text) -> Result<(), CallFault> {
    let (word, input) = call.split_once(' ').unwrap_or((call, ""));
    match word {
        "add" => add(alloc, log, input),
        "segments" => say_segments(log, output),
        "end" => say_end(log, output),
        "after" => say_after(alloc, log, input, output),
        "unread" => say_unread(alloc, log, input, output),
        _ => Err(CallFault::Unread),
    }
}

/// What the calls say.
pub fn answers(alloc: Global, input: &str) -> Result<Text, CallFault> {
    let mut log = Log::new(alloc, table_of(alloc, "t")?);
    let mut output = Text::new(alloc);
    for call in input.split("; ") {
        take(alloc, &mut log, call, &mut output)?;
    }
    Ok(output)
}

//! Calls on a table of row locks, with semicolons between them: `ask 1 X t.0 [5,5]` of session 1 for an exclusive lock on the
//! key 0 of the table `t`, or for more locks at once; `test`, `undo` of an ask that is granted, and `free 1`. Each says
//! `granted`, or the session that refuses. `held t.0` gives the locks on a key by rising low end, as `1 X, 2 S`, or `none`.

use crate::lock_calls::lock_words::set_in;
use base_values::{Name, Text};
use server_locks::row_locks::{HeldLock, LockAnswer, LockSet, RowLocks};
use std::alloc::{AllocError, Global};
use test_lines::{CallFault, place_of, say, unsigned_of};

fn undone(locks: &mut RowLocks, session: u32, set: &LockSet) -> Result<LockAnswer, AllocError> {
    let answer = locks.ask(session, set)?;
    if answer == LockAnswer::Granted {
        locks.undo(session);
    }
    Ok(answer)
}

fn answer_of(
    locks: &mut RowLocks,
    call: &str,
    session: u32,
    set: &LockSet,
) -> Result<LockAnswer, CallFault> {
    match call {
        "ask" => Ok(locks.ask(session, set)?),
        "test" => Ok(locks.test(session, set)),
        "undo" => Ok(undone(locks, session, set)?),
        "free" => {
            locks.free(session);
            Ok(LockAnswer::Granted)
        }
        _ => Err(CallFault::Unread),
    }
}

fn say_answer(alloc: Global, output: &mut Text, answer: LockAnswer) -> Result<(), AllocError> {
    match answer {
        LockAnswer::Granted => say(output, "granted"),
        LockAnswer::Waits { by } => say(output, format!(in alloc; "{by} refuses")?.as_str()),
    }
}

/// The answer to a call of a session with the words of locks.
fn asked(
    alloc: Global,
    locks: &mut RowLocks,
    call: &str,
    session: u32,
    words: &str,
) -> Result<LockAnswer, CallFault> {
    let set = set_in(alloc, words)?;
    answer_of(locks, call, session, &set)
}

/// Adds a lock to those before it, as `1 X`.
fn list_lock(alloc: Global, listed: &mut Text, held: &HeldLock) -> Result<(), AllocError> {
    let strength = if held.lock.exclusive { "X" } else { "S" };
    let comma = if listed.as_str().is_empty() { "" } else { ", " };
    listed.push_str(format!(in alloc; "{comma}{} {strength}", held.session)?.as_str())
}

/// Says the locks on a key.
fn say_held(
    alloc: Global,
    locks: &RowLocks,
    key: &str,
    output: &mut Text,
) -> Result<(), CallFault> {
    let (table, key) = key.split_once('.').ok_or(CallFault::Unread)?;
    let table = Name::new(alloc, table)?;
    let key = place_of(key)?;
    let mut listed = Text::new(alloc);
    for held in locks.held(&table, key) {
        list_lock(alloc, &mut listed, held)?;
    }
    let is_none = listed.as_str().is_empty();
    say(output, if is_none { "none" } else { listed.as_str() })?;
    Ok(())
}

/// Takes a call of a session.
fn take_ask(
    alloc: Global,
    locks: &mut RowLocks,
    call: &str,
    rest: &str,
    output: &mut Text,
) -> Result<(), CallFault> {
    let (session, words) = rest.split_once(' ').unwrap_or((rest, ""));
    let answer = asked(alloc, locks, call, unsigned_of(session)?, words)?;
    say_answer(alloc, output, answer)?;
    Ok(())
}

fn take(
    alloc: Global,
    locks: &mut RowLocks,
    call: &str,
    output: &mut Text,
) -> Result<(), CallFault> {
    let (call, rest) = call.split_once(' ').ok_or(CallFault::Unread)?;
    match call {
        "held" => say_held(alloc, locks, rest, output),
        _ => take_ask(alloc, locks, call, rest, output),
    }
}

fn take_each(
    alloc: Global,
    locks: &mut RowLocks,
    calls: &str,
    output: &mut Text,
) -> Result<(), CallFault> {
    for call in calls.split("; ") {
        take(alloc, locks, call, output)?;
    }
    Ok(())
}

/// What the calls answer.
pub fn answers(alloc: Global, input: &str) -> Result<Text, CallFault> {
    let mut locks = RowLocks::new(alloc);
    let mut output = Text::new(alloc);
    take_each(alloc, &mut locks, input, &mut output)?;
    Ok(output)
}

//! Calls on the row locks that session 1 holds, with semicolons between them: `hold X t.0 [5,5]` gives it an exclusive lock on
//! the key 0 of the table `t`, or more locks at once, and `each S t.0 1 200` a shared lock on each number from 1 to 200.
//! `test X t.0 [5,5]` says whether one of those that are held refuses the lock to session 2.

use crate::lock_calls::lock_words::{lock_of, set_in};
use base_values::{Sequence, Text};
use server_locks::row_locks::{Lock, LockSet, RowLocks};
use std::alloc::Global;
use test_lines::{CallFault, say, unsigned_of};

/// A lock on the key of one number.
fn one(alloc: Global, strength: &str, key: &str, number: u32) -> Result<Lock, CallFault> {
    let span = format!(in alloc; "[{number},{number}]")?;
    lock_of(alloc, strength, key, span.as_str())
}

/// A lock on each number from the first to the last.
fn each(
    alloc: Global,
    strength: &str,
    key: &str,
    first: u32,
    last: u32,
) -> Result<LockSet, CallFault> {
    let mut set = Sequence::new(alloc);
    for number in first..=last {
        set.push(one(alloc, strength, key, number)?)?;
    }
    Ok(set)
}

/// The locks of four words, as `S t.0 1 200`.
fn each_in(alloc: Global, words: &str) -> Result<LockSet, CallFault> {
    let (strength, rest) = words.split_once(' ').ok_or(CallFault::Unread)?;
    let (key, rest) = rest.split_once(' ').ok_or(CallFault::Unread)?;
    let (first, last) = rest.split_once(' ').ok_or(CallFault::Unread)?;
    each(
        alloc,
        strength,
        key,
        unsigned_of(first)?,
        unsigned_of(last)?,
    )
}

fn hold(held: &mut RowLocks, set: LockSet) -> Result<(), CallFault> {
    held.grant(1, &set)?;
    Ok(())
}

fn test(alloc: Global, held: &RowLocks, words: &str, output: &mut Text) -> Result<(), CallFault> {
    let set = set_in(alloc, words)?;
    let refused = held.blocker(2, set.as_slice()).is_some();
    say(output, if refused { "yes" } else { "no" })?;
    Ok(())
}

fn take(
    alloc: Global,
    held: &mut RowLocks,
    call: &str,
    output: &mut Text,
) -> Result<(), CallFault> {
    let (word, rest) = call.split_once(' ').ok_or(CallFault::Unread)?;
    match word {
        "hold" => hold(held, set_in(alloc, rest)?),
        "each" => hold(held, each_in(alloc, rest)?),
        "test" => test(alloc, held, rest, output),
        _ => Err(CallFault::Unread),
    }
}

fn take_each(
    alloc: Global,
    held: &mut RowLocks,
    calls: &str,
    output: &mut Text,
) -> Result<(), CallFault> {
    for call in calls.split("; ") {
        take(alloc, held, call, output)?;
    }
    Ok(())
}

/// What the calls answer.
pub fn answers(alloc: Global, input: &str) -> Result<Text, CallFault> {
    let mut held = RowLocks::new(alloc);
    let mut output = Text::new(alloc);
    take_each(alloc, &mut held, input, &mut output)?;
    Ok(output)
}

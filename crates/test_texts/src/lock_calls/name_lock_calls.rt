//! Calls on a table of metadata locks, with semicolons between them. Names are letters in one word, as `tu`, and a dash stands
//! for none. `S 1 tu` and `X 1 tu` ask for shared and for exclusive locks of session 1, and `test-S 1 t` and `test-X 1 t` test for
//! them. `turn 1 t` asks for exclusive locks and ends the request where it is granted; `undo-S 1 t` and `undo-X 1 t` take an ask
//! back. `poll 1`, `poll-end 1` and `poll-undo 1` are the same of a poll. `end 1` ends a request that waits, and `free 1` takes all
//! away. These say `granted`, or who refuses. `holder t` says who holds it exclusively, and `waiting 1` whether the session waits.

use base_values::{Name, Names, Sequence, Text};
use server_locks::metadata_locks::{LockAnswer, MetaLocks};
use std::alloc::{AllocError, Global};
use test_lines::{CallFault, say, unsigned_of};

/// Adds the name of one letter.
fn push_name(alloc: Global, names: &mut Names, letter: char) -> Result<(), AllocError> {
    let mut buffer = [0u8; 4];
    names.push(Name::new(alloc, letter.encode_utf8(&mut buffer))?)?;
    Ok(())
}

fn names_of(alloc: Global, letters: &str) -> Result<Names, AllocError> {
    let mut names = Sequence::new(alloc);
    for letter in letters.chars() {
        if letter != '-' {
            push_name(alloc, &mut names, letter)?;
        }
    }
    Ok(names)
}

/// What is done with a request that was granted just now.
#[derive(Clone, Copy)]
enum Then {
    /// It is kept.
    Keep,
    /// It is ended.
    End,
    /// It is taken back.
    Undo,
}

/// An ask of a session that doesn't wait.
fn ask(
    locks: &mut MetaLocks,
    session: u32,
    names: &Names,
    exclusive: bool,
) -> Result<LockAnswer, CallFault> {
    if locks.waiting(session) {
        return Err(CallFault::Unread);
    }
    Ok(locks.ask(session, names, exclusive)?)
}

/// An ask for exclusive locks that is ended where it is granted.
fn turn(locks: &mut MetaLocks, session: u32, names: &Names) -> Result<LockAnswer, CallFault> {
    if locks.waiting(session) {
        return Err(CallFault::Unread);
    }
    let answer = locks.ask(session, names, true)?;
    if answer == LockAnswer::Granted {
        locks.end(session);
    }
    Ok(answer)
}

/// An ask for shared locks that is taken back where it is granted.
fn shared_undone(
    locks: &mut MetaLocks,
    session: u32,
    names: &Names,
) -> Result<LockAnswer, CallFault> {
    if locks.waiting(session) {
        return Err(CallFault::Unread);
    }
    let answer = locks.ask(session, names, false)?;
    if answer == LockAnswer::Granted {
        locks.undo(session);
    }
    Ok(answer)
}

/// An ask for exclusive locks that is taken back.
fn exclusive_undone(
    locks: &mut MetaLocks,
    session: u32,
    names: &Names,
) -> Result<LockAnswer, CallFault> {
    if locks.waiting(session) {
        return Err(CallFault::Unread);
    }
    let answer = locks.ask(session, names, true)?;
    locks.undo(session);
    Ok(answer)
}

/// A poll of a session that waits.
fn poll(locks: &mut MetaLocks, session: u32, then: Then) -> Result<LockAnswer, CallFault> {
    if !locks.waiting(session) {
        return Err(CallFault::Unread);
    }
    let answer = locks.poll(session);
    if answer == LockAnswer::Granted {
        match then {
            Then::Keep => {}
            Then::End => locks.end(session),
            Then::Undo => locks.undo(session),
        }
    }
    Ok(answer)
}

/// The end of a request that waits.
fn end(locks: &mut MetaLocks, session: u32) -> Result<LockAnswer, CallFault> {
    if !locks.waiting(session) {
        return Err(CallFault::Unread);
    }
    locks.end(session);
    Ok(LockAnswer::Granted)
}

/// A call about these names.
fn asked_of(
    locks: &mut MetaLocks,
    call: &str,
    session: u32,
    names: &Names,
) -> Result<LockAnswer, CallFault> {
    match call {
        "S" => ask(locks, session, names, false),
        "X" => ask(locks, session, names, true),
        "test-S" => Ok(locks.test(session, names, false)),
        "test-X" => Ok(locks.test(session, names, true)),
        "turn" => turn(locks, session, names),
        "undo-S" => shared_undone(locks, session, names),
        "undo-X" => exclusive_undone(locks, session, names),
        _ => Err(CallFault::Unread),
    }
}

/// A call that names locks.
fn asked(
    alloc: Global,
    locks: &mut MetaLocks,
    call: &str,
    session: u32,
    letters: &str,
) -> Result<LockAnswer, CallFault> {
    let names = names_of(alloc, letters)?;
    asked_of(locks, call, session, &names)
}

/// A call that names a session alone.
fn called(locks: &mut MetaLocks, call: &str, session: u32) -> Result<LockAnswer, CallFault> {
    match call {
        "poll" => poll(locks, session, Then::Keep),
        "poll-end" => poll(locks, session, Then::End),
        "poll-undo" => poll(locks, session, Then::Undo),
        "end" => end(locks, session),
        "free" => {
            locks.free(session);
            Ok(LockAnswer::Granted)
        }
        _ => Err(CallFault::Unread),
    }
}

fn say_answer(alloc: Global, output: &mut Text, answer: LockAnswer) -> Result<(), AllocError> {
    match answer {
        LockAnswer::Granted => say(output, "granted"),
        LockAnswer::Waits { by } => say(output, format!(in alloc; "{by} refuses")?.as_str()),
    }
}

fn say_holder(
    alloc: Global,
    locks: &MetaLocks,
    name: &str,
    output: &mut Text,
) -> Result<(), AllocError> {
    let name = Name::new(alloc, name)?;
    match locks.held_by(&name) {
        Some(session) => say(output, format!(in alloc; "{session} holds")?.as_str()),
        None => say(output, "nobody"),
    }
}

fn say_waiting(locks: &MetaLocks, session: &str, output: &mut Text) -> Result<(), CallFault> {
    let waits = locks.waiting(unsigned_of(session)?);
    say(output, if waits { "yes" } else { "no" })?;
    Ok(())
}

/// The answer to a call of a session, with names or without.
fn answer_of(
    alloc: Global,
    locks: &mut MetaLocks,
    call: &str,
    input: &str,
) -> Result<LockAnswer, CallFault> {
    match input.split_once(' ') {
        Some((session, letters)) => asked(alloc, locks, call, unsigned_of(session)?, letters),
        None => called(locks, call, unsigned_of(input)?),
    }
}

fn take(
    alloc: Global,
    locks: &mut MetaLocks,
    call: &str,
    output: &mut Text,
) -> Result<(), CallFault> {
    let (word, input) = call.split_once(' ').ok_or(CallFault::Unread)?;
    match word {
        "holder" => say_holder(alloc, locks, input, output)?,
        "waiting" => say_waiting(locks, input, output)?,
        _ => say_answer(alloc, output, answer_of(alloc, locks, word, input)?)?,
    }
    Ok(())
}

fn take_each(
    alloc: Global,
    locks: &mut MetaLocks,
    calls: &str,
    output: &mut Text,
) -> Result<(), CallFault> {
    for call in calls.split("; ") {
        take(alloc, locks, call, output)?;
    }
    Ok(())
}

/// What the calls answer.
pub fn answers(alloc: Global, input: &str) -> Result<Text, CallFault> {
    let mut locks = MetaLocks::new(alloc);
    let mut output = Text::new(alloc);
    take_each(alloc, &mut locks, input, &mut output)?;
    Ok(output)
}

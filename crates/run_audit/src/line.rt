//! A turn, as one line of a trace has it.

use base_script::{Actor, Side};
use base_values::{Rows, Sequence};

/// What was asked.
#[derive(Clone, Copy)]
pub enum LineAsked {
    /// A call of the actor's session, but no RENAME.
    Call,
    /// The call of a RENAME.
    Rename,
    /// The request that waits was tried again.
    Poll,
    /// Nothing: the session was lost between calls.
    Cut,
    /// A command of the operator's.
    Word,
}

/// What was answered.
#[derive(Drop)]
pub enum LineAnswer {
    /// It was done, with how many rows it wrote, changed or removed.
    Ok(u64),
    /// It was refused with this number.
    Error(u64),
    /// The rows that a client read.
    Rows(Rows),
    /// It had to wait, for this session.
    Waits(u64),
    /// Its wait was over after so many polls.
    TimedOut(u64),
    /// The session was lost, and the call wasn't done.
    Lost,
    /// The session was lost after the call, which was done.
    LostDone,
    /// The session was lost after the call, which had to wait.
    LostWaited,
    /// The session was lost after the call, which was refused, or whose wait was over.
    LostRefused,
    /// An answer that only the tool gets.
    Other,
}

/// One turn.
#[derive(Drop)]
pub struct TraceLine {
    /// Whose turn it was.
    pub actor: Actor,
    /// What it asked.
    pub asked: LineAsked,
    /// Where its session was lost in this turn: before the call was done, or after.
    pub side: Option<Side>,
    /// What it was answered.
    pub answer: LineAnswer,
    /// The number that the statement drew, where it drew one.
    pub drawn: Option<u64>,
}

/// Turns in order: the line of turn n is the n-th.
pub type TraceLines = Sequence<TraceLine>;

//! Transactions of clients that ended, line by line, and the replies to them.

use base_script::{ScriptWord, Side};
use base_values::{Duplicate, Rows, Sequence};
use std::alloc::AllocError;

/// What became of one line of a transaction.
#[derive(Clone, Copy)]
pub enum Mark {
    /// It was answered.
    Answered,
    /// Its wait timed out.
    TimedOut,
    /// Its session was lost at it: before it was done, or after.
    Lost(Side),
}

/// A line of a transaction, and what became of it.
#[derive(Drop)]
pub struct TxnLine {
    /// The line.
    pub word: ScriptWord,
    /// What became of it.
    pub mark: Mark,
}

/// Lines in order.
pub type TxnLines = Sequence<TxnLine>;

/// How a transaction ended.
#[derive(Clone, Copy)]
pub enum TxnEnd {
    /// It was a single statement.
    Single,
    /// By COMMIT.
    Committed,
    /// By ROLLBACK.
    RolledBack,
    /// By a wait that timed out.
    TimedOut,
    /// By the loss of its session.
    Lost,
}

/// A transaction that ended.
#[derive(Drop)]
pub struct EndedTxn {
    /// Its lines, in order.
    pub lines: TxnLines,
    /// How it ended.
    pub ended: TxnEnd,
}

/// What a client got for a line.
#[derive(Drop)]
pub enum Reply {
    /// It is done, with how many rows it wrote, changed or removed.
    Ok(u64),
    /// The number of an error.
    Error(u16),
    /// The rows that a SELECT read.
    Rows(Rows),
}

/// Replies in order.
pub type Replies = Sequence<Reply>;

impl Duplicate for TxnLine {
    fn copy(&self) -> Result<TxnLine, AllocError> {
        Ok(TxnLine {
            word: self.word.copy()?,
            mark: self.mark,
        })
    }
}

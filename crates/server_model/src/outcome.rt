//! How a migration ends, and what its tasks make of an answer.

use base_values::{Key, Name, Sequence};

/// A task of the tool, which may be tried again where it fails.
#[derive(Clone, Copy)]
pub enum Task {
    /// The setup: the changelog and the new table are made, and the range of keys is read.
    Setup,
    /// A chunk of the copy, by its number from 1.
    Chunk(u64),
    /// A batch of logged events, by its position in the log.
    Batch(u64),
    /// The cut-over: one attempt at the RENAME.
    CutOver,
}

/// Numbers in order.
pub type Numbers = Sequence<u64>;

/// Why a migration was reverted.
#[derive(Drop)]
pub enum Cause {
    /// A converted row has a value that doesn't fit its new column.
    Unfit {
        /// The turn at which the column refused, from 1.
        turn: u64,
        /// The row's clustered key in the old schema.
        key: Key,
        /// The column's name in the new schema.
        column: Name,
        /// The refusal's number.
        number: u16,
    },
    /// A task failed as often as it may.
    Spent {
        /// Which task it was.
        task: Task,
        /// The turns in which its tries failed, rising.
        turns: Numbers,
    },
    /// The operator commanded `panic`.
    Panic {
        /// The turn of the command.
        turn: u64,
    },
}

/// How a migration ended.
#[derive(Drop)]
pub enum Verdict {
    /// The ALTER was done.
    Done,
    /// The ALTER wasn't done, and the table is as before.
    Reverted(Cause),
    /// The run hasn't ended.
    Unfinished,
}

/// What an answer means for a task.
#[derive(Clone, Copy)]
pub enum Progress {
    /// The task goes on.
    Going,
    /// The task is done, and the next one begins.
    TaskDone,
    /// This try of the task failed.
    TaskFailed,
    /// A converted row has a value that doesn't fit its new column.
    Unfit {
        /// The column's place in the new schema, from 0.
        column: usize,
        /// The refusal's number.
        number: u16,
    },
}

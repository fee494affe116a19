//! What the server answers.

use crate::listing::{ShownWaiters, TableNames};
use base_values::{Duplicate, Events, Key, Keys, Rows};
use std::alloc::AllocError;

/// The answer to one call.
#[derive(Drop)]
pub enum Answer {
    /// It is done, with how many rows it wrote, changed or removed.
    Ok(u64),
    /// The rows that a SELECT reads, in order of the clustered key.
    Rows(Rows),
    /// The keys of a span, and where the chunk ends.
    Keys {
        /// The clustered keys, in order.
        keys: Keys,
        /// The chunk's end.
        end: Key,
    },
    /// The least and the greatest clustered key; none where the table has no row.
    Ends(Option<KeyRange>),
    /// Where a chunk ends.
    End(Key),
    /// How many events the log has.
    At(u64),
    /// Events of the log.
    Events {
        /// The events, in the order of the log.
        events: Events,
        /// The position after them.
        next: u64,
    },
    /// The tables that exist.
    Tables(TableNames),
    /// The sessions that wait for names of tables exclusively.
    Waiting(ShownWaiters),
    /// It is refused, and nothing was done.
    Refused {
        /// The error's number (MySQL's manual, "Server Error Message Reference").
        number: u16,
        /// The place, from 0, of the column that refused its value, where one did.
        column: Option<usize>,
    },
    /// It has to wait, and nothing was done.
    Waits {
        /// The least session that blocks it.
        by: u32,
    },
    /// Its wait is over, and its transaction is rolled back.
    TimedOut {
        /// How often it was polled.
        waited: u32,
    },
    /// The session was lost: what the journal keeps of an answer that nobody heard.
    Lost,
}

/// The least and the greatest clustered key of a table's rows.
#[derive(Drop)]
pub struct KeyRange {
    /// The key of the first row.
    pub least: Key,
    /// The key of the last row.
    pub greatest: Key,
}

impl Duplicate for KeyRange {
    fn copy(&self) -> Result<KeyRange, AllocError> {
        Ok(KeyRange {
            least: self.least.copy()?,
            greatest: self.greatest.copy()?,
        })
    }
}

impl Duplicate for Answer {
    fn copy(&self) -> Result<Answer, AllocError> {
        Ok(match self {
            Answer::Ok(count) => Answer::Ok(*count),
            Answer::Rows(rows) => Answer::Rows(rows.copy()?),
            Answer::Keys { keys, end } => Answer::Keys {
                keys: keys.copy()?,
                end: end.copy()?,
            },
            Answer::Ends(range) => Answer::Ends(range.copy()?),
            Answer::End(key) => Answer::End(key.copy()?),
            Answer::At(count) => Answer::At(*count),
            Answer::Events { events, next } => Answer::Events {
                events: events.copy()?,
                next: *next,
            },
            Answer::Tables(tables) => Answer::Tables(tables.copy()?),
            Answer::Waiting(waiters) => Answer::Waiting(waiters.copy()?),
            Answer::Refused { number, column } => Answer::Refused {
                number: *number,
                column: *column,
            },
            Answer::Waits { by } => Answer::Waits { by: *by },
            Answer::TimedOut { waited } => Answer::TimedOut { waited: *waited },
            Answer::Lost => Answer::Lost,
        })
    }
}

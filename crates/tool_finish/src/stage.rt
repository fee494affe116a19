//! How far the new tool is.

use tool_notes::Checkpoint;
use tool_program::chunk_copier::Copier;
use tool_program::event_applier::Applier;

/// What the list of tables tells.
#[derive(Clone, Copy)]
pub enum Listed {
    /// The RENAME wasn't done: the new table is listed.
    NotRenamed {
        /// So is the sentry.
        sentry: bool,
    },
    /// It was: the new table isn't listed.
    Renamed {
        /// A table under the old table's name is.
        old: bool,
    },
}

/// A new column refused a value.
#[derive(Clone, Copy)]
pub struct Refusal {
    /// The turn, from 1.
    pub turn: u64,
    /// The column's place in the new schema, from 0.
    pub column: usize,
    /// The refusal's number.
    pub number: u16,
}

/// A converted row that didn't fit, with the machine that had it.
pub enum UnfitRow {
    /// The copier's.
    Copied(Copier, Refusal),
    /// The applier's.
    Applied(Applier, Refusal),
}

/// Which call comes next.
#[derive(Drop)]
pub enum Stage {
    /// The sessions that the run left are lost, one by one.
    Losing,
    /// The tables are listed.
    Listing,
    /// The checkpoint's row is read.
    Reading(Listed),
    /// The sentry is dropped.
    Clearing(Checkpoint),
    /// The table's counter is asked for.
    ReadingCounter(Checkpoint),
    /// The new table's counter is set to this number.
    SettingCounter(Checkpoint, u64),
    /// The least and the greatest key are asked for.
    Ranging(Checkpoint),
    /// Rows are copied; then this applier begins.
    Copying(Copier, Applier),
    /// Events are applied.
    Applying(Applier),
    /// The two tables are exchanged.
    Exchanging,
    /// The changelog is dropped; then the old table, where this is true.
    DroppingLog(bool),
    /// The old table is dropped.
    DroppingOld,
    /// The transaction with a row that didn't fit is rolled back.
    RollingBack(UnfitRow),
    /// The new tool is over, and the ALTER done.
    Done,
    /// It is over, since a row didn't fit.
    Reverted(UnfitRow),
}

// By hand, so that a function that lets one go, here or in a crate above, has one call, and doesn't prove the drop of each part
// again.
impl Drop for UnfitRow {
    fn drop(self) {
        match self {
            UnfitRow::Copied(copier, _) => drop(copier),
            UnfitRow::Applied(applier, _) => drop(applier),
        }
    }
}

//! Row events, as MySQL's binary log has them in ROW format with full row images.

ghost use Rattle.std.specs.Prelude.{◌≡◌, IfOk};

use crate::{Duplicate, Name, Row, Sequence};
use std::alloc::AllocError;

/// One row that a transaction wrote, changed or removed (MySQL's manual, "Replication Formats").
#[derive(Drop)]
pub struct RowEvent {
    /// The table's name when the event was logged.
    pub table: Name,
    /// What was done to the row.
    pub change: Change,
}

/// What was done to a row.
#[derive(Drop)]
pub enum Change {
    /// The row was written.
    Write(Row),
    /// The first row was changed into the second.
    Update(Row, Row),
    /// The row was removed.
    Delete(Row),
}

/// Events in order.
pub type Events = Sequence<RowEvent>;

impl Duplicate for Change {
    fn copy(&self) -> Result<Change, AllocError> {
        Ok(match self {
            Change::Write(row) => Change::Write(row.copy()?),
            Change::Update(before, after) => Change::Update(before.copy()?, after.copy()?),
            Change::Delete(row) => Change::Delete(row.copy()?),
        })
    }
}

impl Duplicate for RowEvent {
    fn copy(&self) -> Result<RowEvent, AllocError> {
        Ok(RowEvent {
            table: self.table.copy()?,
            change: self.change.copy()?,
        })
    }
}

//! How far the applier is.

use base_values::gho_schema::Schema;
use base_values::row_conversion::ColumnMap;
use plan_data::MigratedTable;

/// How an event's statement goes.
#[derive(Clone, Copy)]
pub enum Part {
    /// As it is planned.
    Whole,
    /// The UPDATE was refused with `ER_DUP_ENTRY`: now the DELETE.
    Removal,
    /// The DELETE is done: now the REPLACE.
    Return,
}

/// A batch with events of the table.
#[derive(Clone, Copy)]
pub struct Batch {
    /// The turn in which the applier got its events.
    pub read: u64,
    /// The position after them.
    pub next: u64,
    /// The attempt of the last hint row up to there, or 0.
    pub hint: u128,
    /// How many statements are planned for them.
    pub statements: usize,
}

/// Which call comes next.
#[derive(Clone, Copy)]
pub enum ApplyStep {
    /// It reads the next events.
    Reading,
    /// It begins a transaction.
    Beginning(Batch),
    /// It makes a statement.
    Applying {
        /// The batch that is applied.
        batch: Batch,
        /// How many of its statements were done before.
        done: usize,
        /// How the statement goes.
        part: Part,
    },
    /// It commits the batch.
    Committing(Batch),
}

/// How far the applier is. It keeps turns of the journal and counts, and no list that it got.
#[derive(Drop)]
pub struct Applier {
    /// The migrated table.
    pub table: MigratedTable,
    /// The schema of the new table, under its name.
    pub new_schema: Schema,
    /// Where the values of the new columns come from.
    pub map: ColumnMap,
    /// How many events are read at most.
    pub batch: u32,
    /// The number of logged events that are applied or passed over.
    pub position: u64,
    /// The attempt of the last hint row before the position, or 0.
    pub hint: u128,
    /// Which call comes next.
    pub step: ApplyStep,
}

//! Why all is reverted.

use server_model::Task;

/// Why all is reverted.
#[derive(Clone, Copy)]
pub enum Reason {
    /// A row that the copier had didn't fit its new column.
    CopyUnfit {
        /// The turn in which the column refused, from 1.
        turn: u64,
        /// The column's place in the new schema, from 0.
        column: usize,
        /// The refusal's number.
        number: u16,
    },
    /// A row that the applier had didn't fit its new column.
    ApplyUnfit {
        /// The turn in which the column refused, from 1.
        turn: u64,
        /// The column's place in the new schema, from 0.
        column: usize,
        /// The refusal's number.
        number: u16,
    },
    /// A task failed as often as it may; the tool keeps the turns.
    Spent(Task),
    /// The operator commanded it in this turn.
    Panicked(u64),
}

//! What a statement is to do, once it is checked against its table's schema, and what it gives.

use crate::answer::Answer;
use base_values::row_conversion::UnfitAt;
use base_values::{Events, Row, Sequence, Span, Value};

/// Some values of one unique key of a table: those that a condition asks for.
#[derive(Drop)]
pub struct Reach {
    /// The key's place among the table's unique keys.
    pub key: usize,
    /// The values.
    pub span: Span,
}

/// What is selected of the rows that are read.
#[derive(Drop)]
pub enum Selection {
    /// The values of all columns.
    AllColumns,
    /// The values of the columns at these places, in this order.
    Columns(Sequence<usize>),
    /// How many rows they are.
    Count,
}

/// For each column in order the value that it is set to, where it is.
pub type ColumnSets = Sequence<Option<Value>>;

/// What a statement is to do.
pub enum Work {
    /// Nothing: it is refused.
    Refuse(Answer),
    /// A new row is written.
    Insert(Row),
    /// A new row is written, unless it clashes with one (INSERT IGNORE).
    Copy(Row),
    /// A new row is written, in place of those that it clashes with.
    Replace(Row),
    /// Rows are removed.
    Delete(Reach),
    /// Rows are changed.
    Update {
        /// Which rows.
        reach: Reach,
        /// What their columns are set to, or the first column that doesn't store its value.
        sets: Result<ColumnSets, UnfitAt>,
    },
    /// Rows are read.
    Select {
        /// Which rows.
        reach: Reach,
        /// What is selected of them.
        selection: Selection,
    },
}

// By hand, as that of a request.
impl Drop for Work {
    fn drop(self) {
        match self {
            Work::Refuse(answer) => drop(answer),
            Work::Insert(row) | Work::Copy(row) | Work::Replace(row) => drop(row),
            Work::Delete(reach) => drop(reach),
            Work::Update { reach, sets } => {
                drop(reach);
                drop(sets);
            }
            Work::Select { reach, selection } => {
                drop(reach);
                drop(selection);
            }
        }
    }
}

/// What a statement says.
#[derive(Drop)]
pub struct StatementResult {
    /// What its session is answered.
    pub answer: Answer,
    /// What it writes, in order.
    pub events: Events,
}

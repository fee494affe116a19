//! How far the copier is.

use base_values::row_conversion::ColumnMap;
use base_values::{Bound, Key};
use plan_data::MigratedTable;

/// A chunk that was begun.
#[derive(Clone, Copy)]
pub struct Chunk {
    /// The turn in which the copier got its keys and its end.
    pub reported: u64,
    /// How many keys it has.
    pub keys: usize,
    /// Whether it ends at the greatest key of the range.
    pub is_last: bool,
}

/// Which call comes next.
#[derive(Clone, Copy)]
pub enum CopyStep {
    /// It asks where the next chunk ends.
    Choosing,
    /// It begins the chunk and asks for its keys.
    Spanning {
        /// The turn in which it got the chunk's end.
        reported: u64,
        /// How many rows the chunk has at most.
        size: u32,
    },
    /// It copies the row of a key.
    Copying {
        /// The chunk that is copied.
        chunk: Chunk,
        /// How many of its keys were taken before.
        copied: usize,
    },
    /// It commits the chunk.
    Committing(Chunk),
}

/// What is copied.
#[derive(Drop)]
pub struct CopyRange {
    /// Where the copy begins.
    pub low: Bound,
    /// The greatest key.
    pub top: Key,
}

/// How far the copier is. It keeps turns of the journal and counts, and no list that it got.
#[derive(Drop)]
pub struct Copier {
    /// The migrated table.
    pub table: MigratedTable,
    /// Where the values of the new columns come from.
    pub map: ColumnMap,
    /// What is copied; none where the table had no row.
    pub range: Option<CopyRange>,
    /// How many rows the next chunk has at most.
    pub size: u32,
    /// The number of the chunk, from 1.
    pub number: u64,
    /// The turn in which the end of the last committed chunk was read.
    pub following: Option<u64>,
    /// Whether the range is copied.
    pub is_copied: bool,
    /// Which call comes next.
    pub step: CopyStep,
}

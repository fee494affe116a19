//! Why a table isn't rebuilt.

use base_values::Fault;
use base_values::row_conversion::UnfitAt;

/// The first row that is seen and has no converted row.
#[derive(Clone, Copy, Debug)]
pub struct UnfitRow {
    /// Its place among the rows that are seen, from 0: the opening rows in order, then for each event the row after it. An
    /// event that removes a row counts too.
    pub place: usize,
    /// The first new column that refuses its value, and why.
    pub at: UnfitAt,
}

/// Why a table isn't rebuilt: a row has no converted row, or there is no memory.
pub type RebuildFault = Fault<UnfitRow>;

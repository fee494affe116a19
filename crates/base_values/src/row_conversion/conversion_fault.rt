//! Why a row can't be converted.

use crate::{Fault, Unfit};

/// The first new column that refuses its value, and why.
#[derive(Clone, Copy, Debug)]
pub struct UnfitAt {
    /// The place of the column in the new schema, from 0.
    pub column: usize,
    /// Why it refuses.
    pub unfit: Unfit,
}

/// Why a row can't be converted: a column refuses its value, or there is no memory.
pub type ConversionFault = Fault<UnfitAt>;

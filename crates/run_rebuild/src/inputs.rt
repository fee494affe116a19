//! What a rebuild is given.

use base_values::{Row, RowEvent};
use plan_data::AlteredSchema;

/// What a rebuild is given; all shards share it.
#[derive(Drop)]
pub(crate) struct Inputs<'a> {
    /// The opening rows, in order of the clustered key.
    pub opening: &'a [Row],
    /// The places of the clustered key's columns in them.
    pub places: &'a [usize],
    /// The table's events, in order.
    pub events: &'a [RowEvent],
    /// What the table became, and where its values come from.
    pub altered: &'a AlteredSchema,
    /// How many shards there are.
    pub workers: u32,
}

//! Schemas of tables, and the order in which a table keeps its rows.

mod auto_increment;
mod clustered;
mod keyed;
pub mod laws;
mod names;
mod schema;

pub use auto_increment::{auto_place, is_widest};
pub use clustered::{are_not_null, clustered_key, clustered_place, may_cluster};
pub use keyed::{KeyedRows, PutFault, key_of};
pub use names::same_name;
pub use schema::{Column, Columns, Index, Indexes, Places, Schema};

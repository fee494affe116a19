//! What a table of this program may have: how long names are and which are one, what defaults are stored, and *valid schemas*.

mod defaults;
mod limits;
mod names;

pub use defaults::{defaults_fit, stored_default};
pub use limits::{is_column_name, is_reserved, is_table_name};
pub use names::{first_column, free_name, is_among, names_differ, places_of};

//! A plan's table made anew from its opening rows and from what the log said of it when the RENAME was done.

mod log_events;
mod marked_table;

pub use log_events::first_events;
pub use marked_table::rebuilt;

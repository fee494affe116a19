//! What events cost in the log: the bytes that they are encoded in.

mod costs;
mod table_events;

pub use costs::{cost, encoded_size};

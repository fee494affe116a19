//! Worker threads that take turns in one turn queue, whatever its shared state is.

mod work;
mod workers;

pub use work::{Done, take_turns};

//! The log, which grows by a committed transaction at a time.

mod counts;
mod event_bytes;
mod reading;
mod segments;
mod whole;

pub use whole::Log;

//! The gate at which the tool asks whether it may begin a piece of work.
#![tactic(auto)]

mod throttle;

pub use throttle::{Go, Throttle};

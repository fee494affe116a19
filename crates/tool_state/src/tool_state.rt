//! How far the whole tool is: its setup, its operator, its three machines, the turns in which its tasks failed and why all
//! is reverted, as a small record.

mod answers;
mod failures;
mod machines;
mod reason;
mod start;
mod tool;
mod tries;

pub use reason::Reason;
pub use tool::{Tool, Work};
pub use tries::Tries;

//! What a journal says of the clients' transactions: those that ended, in the order in which they ended, with the ALTER at its
//! place, and how far each client is in its script.

mod history_steps;
mod pasts;
mod reached;
mod walks;

pub use history_steps::history_steps_of;
pub use pasts::{Past, PastItem};
pub use reached::Reached;
pub use walks::{Walked, walk};

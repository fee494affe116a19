//! A run whose whole tool was lost, finished by a new tool on the same server: its turns are taken one by one, and each of them is
//! written into the journal.
#![tactic(auto)]

mod finish;
mod finish_state;
mod opening;
mod sessions;

pub use finish::{Finish, FinishFault};
pub use finish_state::FinishState;
pub use sessions::LiveSession;

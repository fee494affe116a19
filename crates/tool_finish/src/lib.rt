//! The new tool that finishes a migration whose whole tool was lost: how far it is, which call comes next, what it makes of an
//! answer, and how it ends.
#![tactic(auto)]

mod answers;
mod calls;
mod checkpoints;
mod ending;
pub mod laws;
mod stage;
mod view;

pub use calls::Asking;
pub use checkpoints::has_written;
pub use stage::{Listed, Refusal, Stage, UnfitRow};
pub use view::FinishView;

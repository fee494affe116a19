//! Calls of a program with plans, and the form in which files have cases of them. The program is a closure, so that this crate
//! is beside it: it is for programs that run cases, and no part of the tool.
#![tactic(auto)]

mod cases;
mod folder;
mod meeting;
mod program;
mod runs;

pub use cases::Case;
pub use folder::{names_in, text_in};
pub use meeting::Meeting;
pub use program::{Call, Ended, Program};
pub use runs::{Edges, Ran, SOUND, run, run_between};

//! The notes: rows of the changelog by which the tool tells, from time to time, how far it is.

mod answers;
mod calls;
mod notes;

pub use answers::is_checkpoint;
pub use calls::writes;
pub use notes::{NoteRow, NoteStep, Notes};

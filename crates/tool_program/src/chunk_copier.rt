//! The copier: it copies the rows of a table chunk by chunk, in order of the clustered key.

mod answers;
mod calls;
mod copier;
mod reach;
mod reader;

pub use calls::CopyCall;
pub use copier::{Chunk, Copier, CopyRange, CopyStep};
pub use reach::ReachView;

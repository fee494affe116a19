//! One turn of a run that is due: first what may want memory, then the server's answer, then the run state.

mod answers;
mod ranges;
mod records;
mod taking;

pub use taking::take;

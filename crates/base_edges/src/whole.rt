//! Texts as a whole: a source read to its end, and a text given to the last byte.

mod fault;
mod give;
mod read;

pub use fault::{ReadFault, SinkFault};
pub use give::give_whole;
pub use read::read_whole;

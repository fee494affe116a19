//! The outside of the program, as traits: where bytes come from, where they go, and who is told of a worker's turns; and texts
//! that are read and given as a whole.
#![tactic(auto)]

mod counts;
mod gate;
mod memory;
mod sink;
mod source;
mod std_edges;
mod whole;

pub use gate::{Gate, OpenGate};
pub use memory::{BytesSink, BytesSource};
pub use sink::{Gave, Sink};
pub use source::{Source, Took};
pub use std_edges::{StdSink, StdSource};
pub use whole::{ReadFault, SinkFault, give_whole, read_whole};

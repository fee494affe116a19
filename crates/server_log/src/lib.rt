//! The log: the events of the committed transactions, encoded in bytes that lie in segments; how an event is encoded; and in
//! `event_costs` how many bytes events take.
#![tactic(auto)]

mod encoding;
pub mod event_costs;
mod fault;
pub mod laws;
mod log;
mod reader;

pub use encoding::{cost, encode};
pub use fault::DecodeFault;
pub use log::Log;
pub use reader::decode;

//! Lines `call | input | answer` of files, over which a program of the gate runs calls of the lower crates: the form of a
//! line, and the pieces of which inputs are made.
#![tactic(auto)]

mod intervals;
mod line;
mod reader;
mod rows;

pub use intervals::{key_of, span_of};
pub use line::Line;
pub use reader::{
    CallFault, bytes_of, kind_of, number_of, place_of, push_codes, row_of, say, text_of,
    unsigned_of, value_of, yes_or_no,
};
pub use rows::say_row;

//! Calls of sessions on the final server, as lines write them: for `test_calls`.
#![tactic(auto)]

mod opening;
pub mod server_lines;

use crate::opening::open;
use crate::server_lines::names_of;
use base_values::Text;
use std::alloc::Global;
use test_lines::CallFault;

/// What the calls say, on a final server whose log counts the events of `t`.
pub fn answers(alloc: Global, input: &str) -> Result<Text, CallFault> {
    let mut server = open(alloc, names_of(alloc, "t")?)?;
    crate::server_lines::answers(alloc, &mut server, input)
}

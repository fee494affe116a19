//! When the tool holds back.

use base_values::Text;
use std::alloc::Global;
use test_lines::{CallFault, text_of, unsigned_of};
use tool_throttle::{Go, Throttle};

/// A load, and whether the word `commanded` comes after it.
fn load_of(text: &str) -> Result<(u64, bool), CallFault> {
    match text.strip_suffix(" commanded") {
        Some(load) => Ok((u64::from(unsigned_of(load)?), true)),
        None => Ok((u64::from(unsigned_of(text)?), false)),
    }
}

fn word_of(go: Go) -> &'static str {
    match go {
        Go::Go => "go",
        Go::Hold { load: true } => "hold by load",
        Go::Hold { load: false } => "hold by command",
    }
}

/// What is answered, of the most load, the load, and the word `commanded` where the operator holds the tool.
pub fn answer(alloc: Global, input: &str) -> Result<Text, CallFault> {
    let (most, load) = input.split_once(' ').ok_or(CallFault::Unread)?;
    let (load, commanded) = load_of(load)?;
    let go = Throttle::new(u64::from(unsigned_of(most)?)).asks(load, commanded);
    text_of(alloc, word_of(go))
}

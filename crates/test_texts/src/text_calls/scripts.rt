//! Clients' scripts, where the tool's table is `_t_gho`.

use base_script::Script;
use base_values::{Name, Text};
use sql_statement::{ScriptFault, ScriptRefusal, read_script};
use std::alloc::Global;
use std::slice;
use test_lines::CallFault;

/// How many lines ask for something, and the number of the last of them.
fn reported_script(alloc: Global, script: &Script) -> Result<Text, CallFault> {
    match script.as_slice().last() {
        Some(last) => two_numbers(alloc, script.len(), " lines to line ", last.line),
        None => two_numbers(alloc, script.len(), " lines to line ", 0),
    }
}

/// The refusal's number and its line.
fn reported_refusal(alloc: Global, refusal: ScriptRefusal) -> Result<Text, CallFault> {
    two_numbers(
        alloc,
        refusal.code.code().0 as usize,
        " in line ",
        refusal.line,
    )
}

fn two_numbers(alloc: Global, first: usize, between: &str, last: u32) -> Result<Text, CallFault> {
    let mut output = Text::new(alloc);
    output.push_number(first as i128)?;
    output.push_str(between)?;
    output.push_number(i128::from(last))?;
    Ok(output)
}

/// What a script has, or its first refusal.
pub fn answer(alloc: Global, text: &str) -> Result<Text, CallFault> {
    let tool = Name::new(alloc, "_t_gho")?;
    match read_script(alloc, text, slice::from_ref(&tool)) {
        Ok(script) => reported_script(alloc, &script),
        Err(ScriptFault::Refused(refusal)) => reported_refusal(alloc, refusal),
        Err(ScriptFault::Memory) => Err(CallFault::Memory),
    }
}

//! Calls about values, words, schemas, converted rows and scripts, as lines write them: for `test_calls`.

mod converted_rows;
mod schemas;
mod scripts;
mod values;
mod words;

use base_values::Text;
use std::alloc::Global;
use test_lines::CallFault;

/// What a call about this subject answers to its input.
pub fn answer(alloc: Global, subject: &str, call: &str, input: &str) -> Result<Text, CallFault> {
    match subject {
        "value" => values::answer(alloc, call, input),
        "word" => words::answer(alloc, call, input),
        "schema" => schemas::answer(alloc, call, input),
        "script" => scripts::answer(alloc, input),
        "image" => converted_rows::converted_row_of(alloc, input),
        _ => Err(CallFault::Unread),
    }
}

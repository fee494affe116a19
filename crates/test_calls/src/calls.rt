//! The calls of the lower crates and of the final server.

use base_values::Text;
use std::alloc::Global;
use test_lines::CallFault;

/// What a call answers to its input.
pub fn answer(alloc: Global, call: &str, input: &str) -> Result<Text, CallFault> {
    let (subject, call) = call.split_once(' ').ok_or(CallFault::Unread)?;
    match subject {
        "value" | "word" | "schema" | "script" | "image" => {
            test_texts::text_calls::answer(alloc, subject, call, input)
        }
        "span" | "held" | "row" | "name" | "throttle" => {
            test_texts::lock_calls::answer(alloc, subject, call, input)
        }
        "event" | "log" | "key" | "table" => test_tables::store_calls::answer(
            alloc, subject, call, input,
        ),
        "database" if call == "calls" => test_tables::database_calls::answers(alloc, input),
        "server" if call == "calls" => test_server::answers(alloc, input),
        _ => Err(CallFault::Unread),
    }
}

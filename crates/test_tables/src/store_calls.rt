//! Calls about events, logs, keys and tables, as lines write them: for `test_calls`.

mod events;
mod keys;
mod log_calls;
mod table_calls;

use base_values::Text;
use std::alloc::Global;
use test_lines::CallFault;

/// What a call about this subject answers to its input.
pub fn answer(alloc: Global, subject: &str, call: &str, input: &str) -> Result<Text, CallFault> {
    match subject {
        "event" => events::decoded(alloc, input),
        "key" => keys::answer(alloc, call, input),
        "log" => log_calls::answers(alloc, input),
        "table" => table_calls::answers(alloc, input),
        _ => Err(CallFault::Unread),
    }
}

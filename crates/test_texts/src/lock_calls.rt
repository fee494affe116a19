//! Calls about spans, locks and the throttle, as lines write them: for `test_calls`.

mod held_lock_calls;
mod lock_words;
mod name_lock_calls;
mod row_lock_calls;
mod spans;
mod throttles;

use base_values::Text;
use std::alloc::Global;
use test_lines::CallFault;

/// What a call about this subject answers to its input.
pub fn answer(alloc: Global, subject: &str, call: &str, input: &str) -> Result<Text, CallFault> {
    match subject {
        "span" => spans::answer(alloc, call, input),
        "held" => held_lock_calls::answers(alloc, input),
        "row" => row_lock_calls::answers(alloc, input),
        "name" => name_lock_calls::answers(alloc, input),
        "throttle" => throttles::answer(alloc, input),
        _ => Err(CallFault::Unread),
    }
}

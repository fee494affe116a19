//! Calls about texts (`text_calls`), and about spans, locks and the throttle (`lock_calls`), as lines write them: for
//! `test_calls`.
#![tactic(auto)]

pub mod lock_calls;
pub mod text_calls;

//! Calls about events, logs, keys and tables (`store_calls`) and about databases (`database_calls`), as lines write them: for
//! `test_calls`.
#![tactic(auto)]

pub mod database_calls;
pub mod store_calls;

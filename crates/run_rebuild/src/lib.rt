//! A table made anew from its opening rows and its events, by shards that threads make.
//!
//! A row's shard is a function of its clustered key. Each shard takes its opening rows and, of each event, what falls to it;
//! it keeps converted rows, so that each row is converted once, when it is seen. Then the shards are put together.
#![tactic(auto)]

mod fault;
mod inputs;
mod rebuilt_table;
mod shard_number;
mod shard_table;
mod steps;
mod union;

pub use fault::{RebuildFault, UnfitRow};
pub use rebuilt_table::rebuild;
pub use shard_number::shard;

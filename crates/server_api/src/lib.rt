//! The final server as a trait: what the tool and the clients use of a server whose tables are in pages. In `paged_answers`
//! what such a server answers of its committed tables alone.
#![tactic(auto)]

pub mod paged_answers;
mod serve;

pub use serve::Serve;

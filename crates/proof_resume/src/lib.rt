//! What holds where the whole tool is lost and a new one finishes: the checkpoint that it goes on from, the new table that it finds, that it is
//! alone on the server, and what it does there.
#![tactic(auto)]

pub mod finish_laws;
pub mod laws;
pub mod start_laws;

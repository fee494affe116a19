//! What holds of runs with a lagging replica: it holds actors back, and yet someone may go.
#![tactic(auto)]

pub mod laws;

//! The replay of a plan on any server, in `whole_replay`: its turns are taken in the plan's order until the run is over.
#![tactic(auto)]

pub mod whole_replay;

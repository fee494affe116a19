//! Worked examples of the definitions: runs of plans and sequences of requests, each computed by the logic. There is no
//! code; the check of `proofs/` is all that it is for.
#![tactic(auto)]

pub mod worked_examples;

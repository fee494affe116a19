//! How many turns a run takes, part by part: meanings and lemmas, and no function. In `Parts` which part a turn is of, in `Terms`
//! the most that a run may have of each. The crate `law_journals` says as contracts what they come to, in `bounds`.
#![tactic(auto)]

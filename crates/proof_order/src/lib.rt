//! In which order the tool does the steps of its cut-over, read from the journal alone: meanings and lemmas, and no function. In
//! `CutOverOrder` what is asked of each call; the crate `law_journals` says as contracts that it is so.
#![tactic(auto)]

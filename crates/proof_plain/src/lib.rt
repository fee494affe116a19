//! What all values of a run have: numbers of at most 38 digits, and bytes that are bytes. Meanings and lemmas, and no function.
#![tactic(auto)]

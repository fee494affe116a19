//! What is known of schemas that are read, printed or altered: meanings and lemmas, and no function.
#![tactic(auto)]

//! What the values of a plan that was read have: its numbers fit their columns, and its texts are made of bytes. Meanings and lemmas, and no
//! function.
#![tactic(auto)]

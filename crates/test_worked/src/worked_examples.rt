//! Worked examples of the laws over journals, computed by the logic. There is no code; the check of `proofs/` is all that it is for.

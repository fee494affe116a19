//! What is known of every run of a migration, whatever is reverted: meanings and lemmas, and no function. In `Migration` that
//! the migration goes on, in `ToolPhase` the tool's course, in `Attempt` the attempts of the cut-over, in `Program` that
//! the program is followed to the mark.
#![tactic(auto)]

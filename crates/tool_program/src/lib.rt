//! The tool's program: what each actor asks next as a function of the journal so far, how a run ends and why, and the orders
//! of turns. In its modules the words of journals (`journal_words`), the tool's machines (`chunk_copier`,
//! `event_applier`, `cutover_core`, `note_writer`), and its setup and operator in code (`tool_setup`).
#![tactic(auto)]

pub mod chunk_copier;
pub mod cutover_core;
pub mod event_applier;
pub mod journal_words;
pub mod note_writer;
pub mod online_calls;
pub mod replays;
pub mod tool_setup;

//! How far a client is in its script, what became of its line in a turn, and what it asks next.

mod actor_state;
mod answers;
mod drawn_words;
mod outcome;
mod requests;

pub use actor_state::ClientState;
pub use answers::ends;
pub use drawn_words::word_numbered;
pub use outcome::{LineOutcome, heard_answer, line_outcome_of};
pub use requests::ClientCall;

//! How counters move in a turn.

ghost use Rattle.std.specs.Prelude.{◌≡◌};
ghost use Rattle.server_model.specs.Counting.{after_drawn, drawn_if, is_answered};
ghost use Rattle.server_sessions.specs.LiveSessions.CounterMoves.{after_given};

use base_values::Name;
use server_model::{Answer, Counter, after_number};

/// How counters move in a turn, by its answer. What takes memory is made before.
#[derive(Drop)]
pub enum CounterMove<'a> {
    /// They stay as they are.
    Stay,
    /// By a statement of the table of this name.
    Raise {
        /// The table's name.
        table: &'a Name,
        /// The number that the statement draws where it is answered.
        drawn: Option<u64>,
        /// One more than the value that it gives the column where rows are written or changed.
        given: u64,
    },
    /// By a definition of tables: they are these once it is done.
    Become(Vec<Counter>),
    /// The counter of the table of this name is no less than this number, once it is set.
    Set {
        /// The table's name.
        table: &'a Name,
        /// The number.
        number: u64,
    },
}

/// Whether the statement was answered, and didn't wait in vain.
fn is_answered(answer: &Answer) -> bool
    ensures { result ≡ is_answered answer.now }
{
    matches!(
        answer,
        Answer::Ok(_) | Answer::Rows(_) | Answer::Refused { .. }
    )
}

/// The number that is drawn by this answer.
pub fn drawn_by(answer: &Answer, drawn: Option<u64>) -> Option<u64>
    ensures { result ≡ drawn_if (is_answered answer.now) drawn }
{
    if is_answered(answer) { drawn } else { None }
}

/// What the counter is at least after the number that was drawn.
pub fn after_drawn(drawn: Option<u64>) -> u64
    ensures { result ≡ after_drawn drawn }
{
    match drawn {
        Some(number) => after_number(number),
        None => 0,
    }
}

/// What the counter is at least after the value that was given.
pub fn after_given(answer: &Answer, given: u64) -> u64
    ensures { result ≡ after_given answer.now given }
{
    match answer {
        Answer::Ok(count) if *count > 0 => given,
        _ => 0,
    }
}

//! What a turn makes of a client's line. Nothing here takes memory.

ghost use Rattle.std.specs.Prelude.{◌≡◌, Some, option_and_then};
ghost use Rattle.server_model.specs.Alone.{reply_of};
ghost use Rattle.tool_program.specs.JournalWords.Clients.{became_of, was_done, lost_side, became_in};
ghost use Rattle.run_actors.specs.ClientTurns.ActorStates.{heard_reply, line_outcome_as};

use base_script::Side;
use server_model::{Answer, Asked, AskedView, Entry, Mark};

/// What became of a client's line in a turn.
#[derive(Clone, Copy)]
pub enum LineOutcome {
    /// The turn says nothing of the line: it is the next one still.
    Nothing,
    /// It was asked, and its session's request waits.
    Waits,
    /// It got a mark.
    Marked(Mark),
    /// The session was lost between lines.
    Broken,
}

/// By the answer of a turn in which no session was lost.
fn line_outcome_of_answer(answer: &Answer) -> LineOutcome
    ensures { result ≡ line_outcome_as (became_of answer.now) }
{
    match answer {
        Answer::Ok(_) | Answer::Rows(_) | Answer::Refused { .. } => LineOutcome::Marked(
            Mark::Answered,
        ),
        Answer::TimedOut { .. } => LineOutcome::Marked(Mark::TimedOut),
        Answer::Waits { .. } => LineOutcome::Waits,
        _ => LineOutcome::Nothing,
    }
}

/// Whether a lost call was done.
fn was_done(missed: &Option<Answer>) -> bool
    ensures { result ≡ was_done missed.now }
{
    match missed {
        None | Some(Answer::Waits { .. } | Answer::TimedOut { .. }) => false,
        Some(_) => true,
    }
}

/// On which side of its call a session was lost, as the client's transaction has it.
fn lost_side(side: Side, missed: &Option<Answer>) -> Side
    ensures { result ≡ lost_side (Some side) missed.now }
{
    match side {
        Side::After if was_done(missed) => Side::After,
        _ => Side::Before,
    }
}

/// What became of the client's line in its turn, where it waited before or didn't.
pub fn line_outcome_of(waits: bool, entry: &Entry) -> LineOutcome
    ensures { result ≡ line_outcome_as (became_in waits entry.now.asked entry.now.side entry.now.answer entry.now.missed) }
{
    match (entry.asked.view(), entry.side) {
        (AskedView::All(Asked::Cut), _) if waits => LineOutcome::Marked(Mark::Lost(Side::Before)),
        (AskedView::All(Asked::Cut), _) => LineOutcome::Broken,
        (_, None) => line_outcome_of_answer(&entry.answer),
        (_, Some(side)) => LineOutcome::Marked(Mark::Lost(lost_side(side, &entry.missed))),
    }
}

/// The answer that the client heard in its turn; none where its session was lost.
pub fn heard_answer(entry: &Entry) -> Option<&Answer>
    ensures { option_and_then (λ answer. reply_of answer.now) result ≡ heard_reply entry.now.asked entry.now.side entry.now.answer }
{
    match (entry.asked.view(), entry.side) {
        (AskedView::All(Asked::Cut), _) | (_, Some(_)) => None,
        (_, None) => Some(&entry.answer),
    }
}

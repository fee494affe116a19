//! What a line says became of a client's line. Nothing here takes memory.

ghost use Rattle.std.specs.Prelude.{◌≡◌};
ghost use Rattle.run_actors.specs.ClientTurns.ActorStates.{line_outcome_as};
ghost use Rattle.run_audit.specs.Rules.{is_cut};
ghost use Rattle.run_judge.specs.Outcomes.{called_outcome, outcome_in};
ghost use Rattle.tool_program.specs.JournalWords.Clients.{cut_off};

use base_script::Side;
use run_actors::client_turns::LineOutcome;
use run_audit::{LineAnswer, LineAsked, TraceLine};
use server_model::Mark;

/// Whether the session was lost between calls.
pub fn is_cut(asked: LineAsked) -> bool
    ensures { result ≡ is_cut asked }
{
    match asked {
        LineAsked::Cut => true,
        LineAsked::Call | LineAsked::Rename | LineAsked::Poll | LineAsked::Word => false,
    }
}

/// By the answer of a turn.
fn called_outcome(answer: &LineAnswer) -> LineOutcome
    ensures { result ≡ called_outcome answer.now }
{
    match answer {
        LineAnswer::Ok(_) | LineAnswer::Error(_) | LineAnswer::Rows(_) | LineAnswer::Other => {
            LineOutcome::Marked(Mark::Answered)
        }
        LineAnswer::Waits(_) => LineOutcome::Waits,
        LineAnswer::TimedOut(_) => LineOutcome::Marked(Mark::TimedOut),
        LineAnswer::LostDone => LineOutcome::Marked(Mark::Lost(Side::After)),
        LineAnswer::Lost | LineAnswer::LostWaited | LineAnswer::LostRefused => {
            LineOutcome::Marked(Mark::Lost(Side::Before))
        }
    }
}

/// By a loss between calls.
fn cut_outcome(waits: bool) -> LineOutcome
    ensures { result ≡ line_outcome_as (cut_off waits) }
{
    if waits {
        LineOutcome::Marked(Mark::Lost(Side::Before))
    } else {
        LineOutcome::Broken
    }
}

/// What became of the client's line in a turn of its own, where it waited before or didn't.
#[tactic(auto, using(crate::proofs::LineOutcomes::cut_is, crate::proofs::LineOutcomes::called_is))]
pub fn outcome_of(waits: bool, line: &TraceLine) -> LineOutcome
    ensures { result ≡ outcome_in waits line.now }
{
    if is_cut(line.asked) {
        cut_outcome(waits)
    } else {
        called_outcome(&line.answer)
    }
}

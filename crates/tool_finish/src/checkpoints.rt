//! Whether a run wrote a checkpoint. Nothing here takes memory.

ghost use Rattle.std.specs.Prelude.{◌≡◌};
ghost use Rattle.std.specs.List.{list_any};
ghost use Rattle.tool_finish.specs.Checkpoints.{asks_checkpoint, was_done, writes_checkpoint};

use base_script::{Actor, Statement};
use server_model::{Answer, Asked, AskedView, Entry, LostCall, Request, TurnAsked};
use tool_program::note_writer::is_checkpoint;

#[tactic(auto, using(crate::proofs::LostNotes::lost_note, crate::proofs::LostNotes::lost_other))]
fn asks_checkpoint(actor: Actor, asked: &TurnAsked) -> bool
    ensures { result ≡ asks_checkpoint actor asked.now }
{
    match (actor, asked.view()) {
        (
            Actor::Insp,
            AskedView::All(Asked::Call(Request::Do(Statement::Replace { values, .. }))),
        ) => is_checkpoint(values.as_slice()),
        (Actor::Insp, AskedView::Lost(LostCall::Replace(is_checkpoint), _)) => is_checkpoint,
        _ => false,
    }
}

/// Whether the call was done, also where nobody heard of it.
fn was_done(entry: &Entry) -> bool
    ensures { result ≡ was_done entry.now.answer entry.now.missed }
{
    matches!(
        (&entry.answer, &entry.missed),
        (Answer::Ok(_), _) | (_, Some(Answer::Ok(_)))
    )
}

/// Whether a checkpoint was written in these turns.
pub fn has_written(run: &[Entry]) -> bool
    ensures { result ≡ list_any writes_checkpoint run.now }
{
    run.iter().any(|entry| asks_checkpoint(entry.actor, &entry.asked) && was_done(entry))
}

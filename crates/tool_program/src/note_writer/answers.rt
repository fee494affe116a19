//! What the notes make of a turn. Nothing here takes memory.

ghost use Rattle.std.specs.Prelude.{◌≡◌, ◌<◌, if◌then◌else◌};
ghost use Rattle.tool_program.specs.NoteWriter.Notes.{new_notes, is_checkpoint, beaten, checked, noted};

use crate::note_writer::notes::{NoteStep, Notes};
use base_script::{Actor, Statement};
use base_values::Value;
use server_model::{Answer, Asked, AskedView, Entry, LostCall, Request};

/// Whether the row is a checkpoint's, whose id is 0.
pub fn is_checkpoint(row: &[Value]) -> bool
    ensures { result ≡ is_checkpoint row.now }
{
    match row {
        [Value::Num(id), ..] => *id == 0,
        _ => false,
    }
}

impl Notes {
    /// Before the first turn.
    pub fn new() -> Notes
        ensures { result ≡ new_notes }
    {
        Notes {
            begun: 0,
            behind: 0,
            step: NoteStep::Waiting,
        }
    }

    /// Takes the answer to a heartbeat.
    fn beaten(&mut self, answer: &Answer)
        requires { self.old.begun < u32.MAX }
        ensures { self.new ≡ beaten self.old answer.now }
    {
        match answer {
            Answer::Ok(_) => {
                self.begun += 1;
                self.behind = 0;
                self.step = NoteStep::Checking;
            }
            Answer::Lost => self.step = NoteStep::Again,
            _ => {}
        }
    }

    /// Takes the answer to a checkpoint.
    fn checked(&mut self, answer: &Answer)
        ensures { self.new ≡ checked self.old answer.now }
    {
        match answer {
            Answer::Ok(_) => {
                self.behind = 0;
                self.step = NoteStep::Waiting;
            }
            Answer::Lost => {
                self.begun = self.begun.saturating_sub(1);
                self.step = NoteStep::Again;
            }
            _ => {}
        }
    }

    /// Takes the answer to a row of a note, the checkpoint's or a heartbeat's.
    fn row_written(&mut self, is_checkpoint: bool, answer: &Answer)
        requires { self.old.begun < u32.MAX }
        ensures { self.new ≡ (if is_checkpoint then checked self.old answer.now else beaten self.old answer.now) }
    {
        if is_checkpoint {
            self.checked(answer);
        } else {
            self.beaten(answer);
        }
    }

    /// Takes one turn more. What the inspector writes by REPLACE is a note.
    #[tactic(auto, using(crate::proofs::NoteWriter::LostNotes::lost_note, crate::proofs::NoteWriter::LostNotes::lost_other), unfolding(crate::specs::NoteWriter::Notes::noted))]
    pub fn take(&mut self, entry: &Entry)
        requires begun { self.old.begun < u32.MAX }
        requires behind { self.old.behind < u64.MAX }
        ensures { self.new ≡ noted self.old entry.now }
    {
        self.behind += 1;
        match (entry.actor, entry.asked.view()) {
            (
                Actor::Insp,
                AskedView::All(Asked::Call(Request::Do(Statement::Replace { values, .. }))),
            ) => self.row_written(is_checkpoint(values.as_slice()), &entry.answer),
            (Actor::Insp, AskedView::Lost(LostCall::Replace(is_checkpoint), _)) => {
                self.row_written(is_checkpoint, &entry.answer);
            }
            _ => {}
        }
    }
}

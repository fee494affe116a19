//! The notes that the inspector writes while no attempt stands.

ghost use Rattle.std.specs.Prelude.{◌≡◌, is_some, option_map, Some, IfOk};
ghost use Rattle.plan_data.specs.PlanData.{PlanData};
ghost use Rattle.server_model.specs.LostCalls.{lost_of};
ghost use Rattle.tool_program.specs.NoteWriter.Notes.{notes_of, checkpoint_next};
ghost use Rattle.tool_program.specs.NoteWriter.NoteRows.{row_of, asked_in};
ghost use Rattle.tool_program.specs.Programs.{checkpoint_in, note_call};
ghost use Rattle.tool_program.specs.Programs as programs;
ghost use Rattle.tool_state.specs.NextCalls as calls;
ghost use Rattle.tool_state.specs.ToolState.Meanings.{work_of, tool_of};

use crate::next_call::NextCall;
use crate::short_checkpoints::is_short;
use crate::tool_state::Work;
use crate::tool_view::ToolView;
use base_values::{Row, Sequence, Shared};
use plan_data::Plan;
use server_api::Serve;
use server_model::{Entry, LostCall, Request};
use std::alloc::{AllocError, Global};
use tool_changelog::{checkpoint_row, heartbeat_row};
use tool_program::note_writer::{NoteRow, writes};

/// The row of a checkpoint now.
fn checkpoint(alloc: Global, journal: &[Entry], work: &Work) -> Result<Option<Row>, AllocError>
    ensures { IfOk result (λ row. row ≡ checkpoint_in journal.now (work_of work.now)) }
{
    let reach = work.copier.reach(journal).copy(alloc)?;
    checkpoint_row(alloc, work.applier.position, &reach)
}

/// The values of a row. A checkpoint that comes next has a row: that it is none never comes.
fn note_values(
    alloc: Global,
    journal: &[Entry],
    work: &Work,
    row: NoteRow,
) -> Result<Row, AllocError>
    ensures { IfOk result (λ values. values ≡ row_of (checkpoint_in journal.now (work_of work.now)) row) }
{
    match row {
        NoteRow::Heartbeat(number) => heartbeat_row(alloc, number),
        NoteRow::Checkpoint => match checkpoint(alloc, journal, work)? {
            Some(values) => Ok(values),
            None => Shared::from_sequence(Sequence::new(alloc)),
        },
    }
}

/// A row of a note is written.
pub(crate) fn note(
    alloc: Global,
    plan: &Plan,
    journal: &[Entry],
    work: &Work,
    row: NoteRow,
) -> Result<Request, AllocError>
    ensures { IfOk result (λ request. request ≡ asked_in plan.now (checkpoint_in journal.now (work_of work.now)) row) }
{
    writes(plan.migrated(), note_values(alloc, journal, work, row)?)
}

/// What a journal keeps of a row of a note that is lost before it is written: a checkpoint's row begins with 0.
#[tactic(auto, using(crate::proofs::LostCalls::lost_heartbeat, crate::proofs::LostCalls::lost_checkpoint))]
pub(crate) fn note_lost(journal: &[Entry], work: &Work, row: NoteRow) -> LostCall
    ensures { (plan : PlanData) → Some result ≡ lost_of (asked_in plan (checkpoint_in journal.now (work_of work.now)) row) }
{
    match row {
        NoteRow::Heartbeat(_) => LostCall::Replace(false),
        NoteRow::Checkpoint => LostCall::Replace(is_short(
            work.applier.position,
            work.copier.reach(journal),
        )),
    }
}

impl<'a, V: Serve> ToolView<'a, V> {
    /// Whether a checkpoint comes next and has a row.
    fn has_checkpoint(&self) -> bool
        ensures { result ≡ is_some (checkpoint_next self.now.notes.step (checkpoint_in self.now.journal.now (work_of self.now.tool.now.work))) }
    {
        let work = &self.tool.work;
        self.notes.is_checking() && is_short(work.applier.position, work.copier.reach(self.journal))
    }

    /// The row of a note that is written next.
    fn note_row(&self) -> Option<NoteRow>
        requires { self.now.notes ≡ notes_of self.now.journal.now }
        ensures { option_map (asked_in self.now.plan.now (checkpoint_in self.now.journal.now (work_of self.now.tool.now.work))) result ≡ note_call self.now.plan.now self.now.journal.now (tool_of self.now.tool.now) (work_of self.now.tool.now.work) }
    {
        if self.tool.is_reverting() {
            return None;
        }
        self.notes.next_row(self.plan, self.has_checkpoint())
    }

    pub(crate) fn note_call(&self) -> Option<NextCall<'a>>
        requires { self.now.notes ≡ notes_of self.now.journal.now }
        ensures { option_map (calls.asked_in self.now.plan.now self.now.journal.now (work_of self.now.tool.now.work)) result ≡ programs.calls (note_call self.now.plan.now self.now.journal.now (tool_of self.now.tool.now) (work_of self.now.tool.now.work)) }
    {
        match self.note_row() {
            Some(row) => Some(NextCall::Note(row)),
            None => None,
        }
    }
}

//! Which row of a note is written next.

ghost use Rattle.std.specs.Prelude.{◌≡◌, ◌<◌, true, List, Option, option_map, IfOk, is_some};
ghost use Rattle.base_values.specs.declared.value.Value.{Value};
ghost use Rattle.tool_program.specs.NoteWriter.Notes.{may_beat, writes, checkpoint_next, next};
ghost use Rattle.tool_program.specs.NoteWriter.NoteRows.{is_checking, asked_in};

use crate::note_writer::notes::{NoteRow, NoteStep, Notes};
use base_script::Statement;
use base_values::{Duplicate, Row};
use plan_data::{MigratedTable, Options, Plan};
use server_model::Request;
use std::alloc::{AllocError, Global};

/// The row is written into the changelog.
pub fn writes(table: &MigratedTable, row: Row) -> Result<Request, AllocError>
    ensures { IfOk result (λ request. request ≡ writes table.now row) }
{
    Ok(Request::Do(Statement::Replace {
        table: table.log_name().copy()?,
        columns: None,
        values: row,
        drawn: None,
    }))
}

impl Notes {
    /// Whether a checkpoint comes next, where it has a row.
    pub fn is_checking(&self) -> bool
        ensures { result ≡ is_checking self.now.step }
    {
        matches!(self.step, NoteStep::Checking)
    }

    /// Whether a heartbeat may be written next.
    fn may_beat(&self, options: Options) -> bool
        ensures beat { result ≡ may_beat options.notes options.note_every self.now }
        ensures few { result ≡ true → self.now.begun < options.notes }
    {
        self.begun < options.notes
            && (matches!(self.step, NoteStep::Again)
                || self.begun == 0
                || u64::from(options.note_every) <= self.behind)
    }

    /// The row that is written next, where this tells whether a checkpoint comes next and has a row.
    #[tactic(auto, using(crate::proofs::NoteWriter::Rows::checkpoint_is, crate::proofs::NoteWriter::Rows::beat_is))]
    pub fn next_row(&self, plan: &Plan, has_checkpoint: bool) -> Option<NoteRow>
        ensures { (row : Option (List Value)) → is_some (checkpoint_next self.now.step row) ≡ has_checkpoint → option_map (asked_in plan.now row) result ≡ next plan.now row self.now }
    {
        if has_checkpoint {
            return Some(NoteRow::Checkpoint);
        }
        if self.may_beat(plan.options()) {
            Some(NoteRow::Heartbeat(self.begun + 1))
        } else {
            None
        }
    }
}

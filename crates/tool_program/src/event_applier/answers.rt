//! What the applier makes of an answer. Nothing here takes memory.

ghost use Rattle.std.specs.Prelude.{◌≡◌, ◌+◌, ◌<◌};
ghost use Rattle.tool_program.specs.EventApplier.Appliers.{new_applier, batch_of, moved, read_batch, after_statements, after_part, after_refusal, took, nothing_planned, progress};
ghost use Rattle.tool_program.specs.EventApplier.BatchPlans.{StepFits};

use crate::event_applier::applier::{Applier, ApplyStep, Batch, Part};
use base_values::RowEvent;
use base_values::gho_schema::Schema;
use base_values::mysql_errors::ER_DUP_ENTRY;
use base_values::row_conversion::ColumnMap;
use plan_data::MigratedTable;
use server_model::{Answer, Progress};
use tool_changelog::last_hint;

/// After this many planned statements.
fn after_statements(batch: Batch, done: usize) -> ApplyStep
    ensures { result ≡ after_statements batch done }
{
    if done == batch.statements {
        ApplyStep::Committing(batch)
    } else {
        ApplyStep::Applying {
            batch,
            done,
            part: Part::Whole,
        }
    }
}

/// After a statement that was done.
fn after_part(batch: Batch, done: usize, part: Part) -> ApplyStep
    requires { done < batch.statements }
    ensures { result ≡ after_part batch done part }
{
    match part {
        Part::Removal => ApplyStep::Applying {
            batch,
            done,
            part: Part::Return,
        },
        Part::Whole | Part::Return => after_statements(batch, done + 1),
    }
}

/// After a statement that was refused: an UPDATE that clashes goes on as DELETE and REPLACE.
fn after_refusal(batch: Batch, done: usize, part: Part, number: u16) -> ApplyStep
    ensures { result ≡ after_refusal batch done part number }
{
    let part = if number == ER_DUP_ENTRY {
        Part::Removal
    } else {
        part
    };
    ApplyStep::Applying { batch, done, part }
}

impl Applier {
    /// An applier at its start, after this many logged events.
    pub fn new(
        table: MigratedTable,
        new_schema: Schema,
        map: ColumnMap,
        position: u64,
        batch: u32,
    ) -> Applier
        ensures made { result ≡ new_applier table new_schema map position batch }
        ensures fits { StepFits result.step }
    {
        Applier {
            table,
            new_schema,
            map,
            batch,
            position,
            hint: 0,
            step: ApplyStep::Reading,
        }
    }

    fn batch_of(&self, turn: u64, events: &[RowEvent], next: u64) -> Batch
        ensures { result ≡ batch_of turn self.now events.now next }
    {
        Batch {
            read: turn,
            next,
            hint: last_hint(self.table.name(), self.hint, events),
            statements: self.count_planned(events),
        }
    }

    /// The position moves to the batch's end.
    fn move_after(&mut self, batch: Batch)
        ensures { self.new ≡ moved self.old batch }
    {
        self.position = batch.next;
        self.hint = batch.hint;
        self.step = ApplyStep::Reading;
    }

    /// A batch was read: it is passed over where there is nothing to apply.
    fn read_batch(&mut self, batch: Batch)
        ensures read { self.new ≡ read_batch self.old batch }
        ensures fits { StepFits self.new.step }
    {
        if batch.statements == 0 {
            self.move_after(batch);
        } else {
            self.step = ApplyStep::Beginning(batch);
        }
    }

    /// Takes the answer that a call got in this turn. A batch whose session was lost or whose wait timed out begins again.
    #[tactic(auto, unfolding(crate::specs::EventApplier::Appliers::took))]
    pub fn took(&mut self, turn: u64, answer: &Answer)
        requires { StepFits self.old.step }
        ensures took { self.new ≡ took turn self.old answer.now }
        ensures fits { StepFits self.new.step }
    {
        match (self.step, answer) {
            (_, Answer::Lost | Answer::TimedOut { .. }) => self.step = ApplyStep::Reading,
            (ApplyStep::Reading, Answer::Events { events, next }) => {
                let batch = self.batch_of(turn, events.as_slice(), *next);
                self.read_batch(batch);
            }
            (ApplyStep::Beginning(batch), Answer::Ok(_)) => {
                self.step = ApplyStep::Applying {
                    batch,
                    done: 0,
                    part: Part::Whole,
                };
            }
            (ApplyStep::Applying { batch, done, part }, Answer::Ok(_)) => {
                self.step = after_part(batch, done, part);
            }
            (ApplyStep::Applying { batch, done, part }, Answer::Refused { number, .. }) => {
                self.step = after_refusal(batch, done, part, *number);
            }
            (ApplyStep::Committing(batch), Answer::Ok(_)) => self.move_after(batch),
            _ => {}
        }
    }

    /// What the answer means for the batch, before it is taken.
    #[tactic(auto, unfolding(crate::specs::EventApplier::Appliers::progress))]
    pub fn progress(&self, answer: &Answer) -> Progress
        ensures { result ≡ progress self.now answer.now }
    {
        match (self.step, answer) {
            (_, Answer::Lost | Answer::TimedOut { .. }) => Progress::TaskFailed,
            (ApplyStep::Reading, Answer::Events { events, .. }) => {
                if self.count_planned(events.as_slice()) == 0 {
                    Progress::TaskDone
                } else {
                    Progress::Going
                }
            }
            (
                ApplyStep::Applying { .. },
                Answer::Refused {
                    number,
                    column: Some(column),
                },
            ) => Progress::Unfit {
                column: *column,
                number: *number,
            },
            (ApplyStep::Committing(_), Answer::Ok(_)) => Progress::TaskDone,
            _ => Progress::Going,
        }
    }
}

//! What is planned for the events of a table: one statement after the other. Nothing here takes memory.

ghost use Rattle.std.specs.Prelude.{◌≡◌, ◌≤◌, length, option_map, [], ◌∷◌};
ghost use Rattle.std.specs.List.{slice_get};
ghost use Rattle.server_model.specs.Entries.{answer_at};
ghost use Rattle.server_model.specs.EarlierAnswers.{events_in};
ghost use Rattle.base_values.specs.declared.event.Change.TheVariants.{Update};
ghost use Rattle.tool_program.specs.EventApplier.Appliers.{Putting, Removing, Changing, doings, planned, doing_in, doing_at, row_done, changes_key, given_values};
ghost use Rattle.tool_program.specs.EventApplier.BatchPlans.{meant, event_doings};

use crate::event_applier::applier::{Applier, ApplyStep, Part};
use crate::event_applier::keys::changes_key;
use base_values::{Change as RowChange, Row, RowEvent, Value};
use server_model::turn_answers::answer_at;
use server_model::{Answer, Entry};

/// What one statement does to the new table with rows of the old one.
#[derive(Clone, Copy)]
pub(crate) enum Planned<'a> {
    /// REPLACE of the converted row.
    Put(&'a Row),
    /// DELETE by the row's key.
    Remove(&'a Row),
    /// UPDATE of the one to the other, which has the same unique keys.
    Change(&'a Row, &'a Row),
}

/// The events that were read in a turn.
fn events_reported(journal: &[Entry], turn: u64) -> &[RowEvent]
    ensures { result.now ≡ events_in (answer_at journal.now turn) }
{
    match answer_at(journal, turn) {
        Some(Answer::Events { events, .. }) => events.as_slice(),
        _ => &[],
    }
}

fn in_part<'a>(part: Part, planned: Option<Planned<'a>>) -> Option<Planned<'a>>
    ensures { option_map meant result ≡ doing_in part (option_map meant planned.entry) }
{
    match (part, planned) {
        (Part::Removal, Some(Planned::Change(before, _))) => Some(Planned::Remove(before)),
        (Part::Return, Some(Planned::Change(_, after))) => Some(Planned::Put(after)),
        (_, planned) => planned,
    }
}

/// An UPDATE that changes a key is a DELETE and a REPLACE.
#[tactic(auto, using(std::proofs::lemmas::Option::slice_get_past))]
fn planned_pair<'a>(before: &'a Row, after: &'a Row, number: usize) -> Option<Planned<'a>>
    ensures { option_map meant result ≡ slice_get (Removing before.now ∷ (Putting after.now ∷ [])) number }
{
    if number == 0 {
        Some(Planned::Remove(before))
    } else if number == 1 {
        Some(Planned::Put(after))
    } else {
        None
    }
}

fn planned_change<'a>(before: &'a Row, after: &'a Row, number: usize) -> Option<Planned<'a>>
    ensures { option_map meant result ≡ slice_get (Changing before.now after.now ∷ []) number }
{
    if number == 0 {
        Some(Planned::Change(before, after))
    } else {
        None
    }
}

impl Applier {
    /// How many statements are planned for an UPDATE.
    fn count_of_update(&self, before: &Row, after: &Row) -> usize
        ensures counted { result ≡ length (doings self.now.new_schema self.now.map (Update before.now after.now)) }
        ensures few { result ≤ 2 }
    {
        if self.changes_key(before, after) {
            2
        } else {
            1
        }
    }

    /// How many statements are planned for a change.
    fn count_of(&self, change: &RowChange) -> usize
        ensures counted { result ≡ length (doings self.now.new_schema self.now.map change.now) }
        ensures few { result ≤ 2 }
    {
        match change {
            RowChange::Write(_) | RowChange::Delete(_) => 1,
            RowChange::Update(before, after) => self.count_of_update(before, after),
        }
    }

    fn changes_key(&self, before: &Row, after: &Row) -> bool
        ensures { result ≡ changes_key self.now.new_schema (given_values self.now.map before.now) (given_values self.now.map after.now) }
    {
        changes_key(
            &self.new_schema,
            self.map.as_slice(),
            before.as_slice(),
            after.as_slice(),
        )
    }

    fn count_in(&self, event: &RowEvent) -> usize
        ensures counted { result ≡ length (event_doings self.now event.now) }
        ensures few { result ≤ 2 }
    {
        if event.table == *self.table.name() {
            self.count_of(&event.change)
        } else {
            0
        }
    }

    /// How many statements are planned for events.
    pub(crate) fn count_planned(&self, events: &[RowEvent]) -> usize
        ensures { result ≡ length (planned self.now events.now) }
    {
        let mut count = 0;
        for event in events {
            count += self.count_in(event);
        }
        count
    }

    /// The planned statement of this number for an UPDATE.
    fn planned_of_update<'a>(
        &self,
        before: &'a Row,
        after: &'a Row,
        number: usize,
    ) -> Option<Planned<'a>>
        ensures { option_map meant result ≡ slice_get (doings self.now.new_schema self.now.map (Update before.now after.now)) number }
    {
        if self.changes_key(before, after) {
            planned_pair(before, after, number)
        } else {
            planned_change(before, after, number)
        }
    }

    /// The planned statement of this number for a change.
    fn planned_of<'a>(&self, change: &'a RowChange, number: usize) -> Option<Planned<'a>>
        ensures { option_map meant result ≡ slice_get (doings self.now.new_schema self.now.map change.now) number }
    {
        match change {
            RowChange::Write(row) if number == 0 => Some(Planned::Put(row)),
            RowChange::Delete(row) if number == 0 => Some(Planned::Remove(row)),
            RowChange::Update(before, after) => self.planned_of_update(before, after, number),
            _ => None,
        }
    }

    fn planned_in<'a>(&self, event: &'a RowEvent, number: usize) -> Option<Planned<'a>>
        ensures { option_map meant result ≡ slice_get (event_doings self.now event.now) number }
    {
        if event.table == *self.table.name() {
            self.planned_of(&event.change, number)
        } else {
            None
        }
    }

    /// The planned statement of this number, from 0, for events.
    fn planned_at<'a>(&self, events: &'a [RowEvent], number: usize) -> Option<Planned<'a>>
        ensures { option_map meant result ≡ slice_get (planned self.now events.now) number }
    {
        let mut left = number;
        for event in events {
            let count = self.count_in(event);
            if left < count {
                return self.planned_in(event, left);
            }
            left -= count;
        }
        None
    }

    /// What is done now.
    pub(crate) fn doing<'a>(&self, journal: &'a [Entry]) -> Option<Planned<'a>>
        ensures { option_map meant result ≡ doing_at journal.now self.now self.now.step }
    {
        match self.step {
            ApplyStep::Applying { batch, done, part } => {
                let events = events_reported(journal, batch.read);
                in_part(part, self.planned_at(events, done))
            }
            _ => None,
        }
    }
}

/// The row of the old table that a statement is about; of two the later one.
pub(crate) fn row_done<'a>(planned: Option<Planned<'a>>) -> &'a [Value]
    ensures { result.now ≡ row_done (option_map meant planned.entry) }
{
    match planned {
        None => &[],
        Some(Planned::Put(row) | Planned::Remove(row) | Planned::Change(_, row)) => row.as_slice(),
    }
}

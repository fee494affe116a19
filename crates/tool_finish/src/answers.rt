//! What the new tool makes of an answer.

ghost use Rattle.std.specs.Prelude.{◌≡◌, ◌<◌, ◌≤◌, ◌-◌, length, is_some, false, if◌then◌else◌, IfOk, OnOk, OnErr};
ghost use Rattle.server_model.specs.declared.answer.Answer.TheVariants.{Ends};
ghost use Rattle.tool_program.specs.ChunkCopier.CopierFacts as chunks;
ghost use Rattle.tool_program.specs.ChunkCopier.Copiers as copiers;
ghost use Rattle.tool_program.specs.CutoverCore.Attempts.{has_sentry};
ghost use Rattle.tool_program.specs.EventApplier.Appliers as appliers;
ghost use Rattle.tool_program.specs.EventApplier.BatchPlans as batches;
ghost use Rattle.tool_finish.specs.declared.stage.Stage.TheVariants.{Losing, Listing};
ghost use Rattle.tool_finish.specs.Finishes.{range_from, copier_from, applier_from, listed, listed_in, dropping, counting, clearing, checkpoint_in, has_read, counter_read, applying, copying, ranged, copied, applied, took};
ghost use Rattle.tool_finish.specs.Stages.{FitsStage, wants_memory, IsSeen};

use crate::stage::{Listed, Refusal, Stage, UnfitRow};
use crate::view::FinishView;
use base_script::Actor;
use base_values::tool_names::is_old_name;
use base_values::{Bound, Duplicate, Name};
use plan_data::Plan;
use server_api::Serve;
use server_model::{Answer, KeyRange, Progress, TableNames};
use std::alloc::{AllocError, Global};
use std::mem;
use tool_changelog::{Reach, SENTRY_COMMENT};
use tool_notes::{Checkpoint, checkpoint_of};
use tool_program::chunk_copier::{Copier, CopyRange};
use tool_program::cutover_core::{lists_new_table, lists_old_table};
use tool_program::event_applier::Applier;
use tool_program::tool_setup::{has_counter, new_map, new_table};

/// What is left to copy: the rows behind the reach, up to the greatest key.
fn range_from(reach: &Reach, range: &Option<KeyRange>) -> Result<Option<CopyRange>, AllocError>
    ensures { IfOk result (λ left. left ≡ range_from reach.now range.now) }
{
    let Some(range) = range else {
        return Ok(None);
    };
    let low = match reach {
        Reach::Nothing => Bound::Closed(range.least.copy()?),
        Reach::To(key) => Bound::Open(key.copy()?),
        Reach::All => return Ok(None),
    };
    Ok(Some(CopyRange {
        low,
        top: range.greatest.copy()?,
    }))
}

fn copier_from(plan: &Plan, reach: &Reach, range: &Option<KeyRange>) -> Result<Copier, AllocError>
    ensures { IfOk result (λ copier. copier ≡ copier_from plan.now reach.now range.now) }
{
    Ok(Copier::new(
        plan.migrated().copy()?,
        new_map(plan).copy()?,
        range_from(reach, range)?,
        plan.options().chunk_size,
    ))
}

fn applier_from(alloc: Global, plan: &Plan, position: u64) -> Result<Applier, AllocError>
    ensures { IfOk result (λ applier. applier ≡ applier_from plan.now position) }
{
    Ok(Applier::new(
        plan.migrated().copy()?,
        new_table(alloc, plan)?,
        new_map(plan).copy()?,
        position,
        plan.options().dml_batch_size,
    ))
}

/// Whether the sentry is listed, and no other table of its name.
#[tactic(auto, unfolding(tool_changelog::specs::ToolTables::sentry_comment))]
fn lists_sentry(table: &Name, tables: &TableNames) -> bool
    ensures { result ≡ has_sentry table.now tables.now }
{
    tables.as_slice().iter().any(|listed| {
        is_old_name(table.as_str(), listed.name.as_str())
            && listed.comment.as_str() == SENTRY_COMMENT
    })
}

fn listed_in(plan: &Plan, tables: &TableNames) -> Listed
    ensures { result ≡ listed_in plan.now tables.now }
{
    let table = plan.table();
    if lists_new_table(table, tables) {
        Listed::NotRenamed {
            sentry: lists_sentry(table, tables),
        }
    } else {
        Listed::Renamed {
            old: lists_old_table(table, tables),
        }
    }
}

fn listed(plan: &Plan, answer: &Answer) -> Stage
    ensures { result ≡ listed plan.now answer.now }
{
    match answer {
        Answer::Tables(tables) => Stage::Reading(listed_in(plan, tables)),
        _ => Stage::Listing,
    }
}

/// What is left over is dropped, the old table only where the plan allows it.
fn dropping(plan: &Plan, old: bool) -> Stage
    ensures { result ≡ dropping plan.now old }
{
    Stage::DroppingLog(old && plan.options().ok_to_drop_table)
}

/// The table's counter is handed on where there is one.
fn counting(plan: &Plan, found: Checkpoint) -> Stage
    ensures { result ≡ counting plan.now found }
{
    if has_counter(plan) {
        Stage::ReadingCounter(found)
    } else {
        Stage::Ranging(found)
    }
}

fn clearing(plan: &Plan, listed: Listed, found: Checkpoint) -> Stage
    ensures { result ≡ clearing plan.now listed found }
{
    match listed {
        Listed::NotRenamed { sentry: true } => Stage::Clearing(found),
        Listed::NotRenamed { sentry: false } => counting(plan, found),
        Listed::Renamed { old } => dropping(plan, old),
    }
}

/// The checkpoint in the first row of an answer.
fn checkpoint_in(alloc: Global, answer: &Answer) -> Result<Option<Checkpoint>, AllocError>
    ensures { IfOk result (λ found. found ≡ checkpoint_in answer.now) }
{
    let Answer::Rows(rows) = answer else {
        return Ok(None);
    };
    match rows.as_slice() {
        [row, ..] => checkpoint_of(alloc, row.as_slice()),
        [] => Ok(None),
    }
}

fn has_read(plan: &Plan, listed: Listed, found: Option<Checkpoint>) -> Stage
    ensures { result ≡ has_read plan.now listed found }
{
    match found {
        Some(found) => clearing(plan, listed, found),
        None => Stage::Reading(listed),
    }
}

fn counter_read(found: Checkpoint, answer: &Answer) -> Stage
    ensures { result ≡ counter_read found answer.now }
{
    match answer {
        Answer::At(number) => Stage::SettingCounter(found, *number),
        _ => Stage::ReadingCounter(found),
    }
}

/// Where the applier is to read and nothing is unread, the tables are exchanged.
fn applying<V: Serve>(view: &FinishView<'_, V>, applier: Applier) -> Stage
    requires seen { IsSeen view.now.plan.now view.now.journal.now view.now.live view.now.names.now }
    ensures stage { result ≡ applying view.now.plan.now (V.state view.now.server.now) applier }
{
    if applier.starts() && view.server.unread(applier.position, view.names) == 0 {
        Stage::Exchanging
    } else {
        Stage::Applying(applier)
    }
}

fn copying<V: Serve>(view: &FinishView<'_, V>, copier: Copier, applier: Applier) -> Stage
    requires seen { IsSeen view.now.plan.now view.now.journal.now view.now.live view.now.names.now }
    ensures stage { result ≡ copying view.now.plan.now (V.state view.now.server.now) copier applier }
{
    if copier.is_copied {
        applying(view, applier)
    } else {
        Stage::Copying(copier, applier)
    }
}

fn ranged<V: Serve>(
    alloc: Global,
    view: &FinishView<'_, V>,
    found: &Checkpoint,
    range: &Option<KeyRange>,
) -> Result<Stage, AllocError>
    requires seen { IsSeen view.now.plan.now view.now.journal.now view.now.live view.now.names.now }
    ensures stage { IfOk result (λ stage. stage ≡ ranged view.now.plan.now (V.state view.now.server.now) found.now (Ends range.now)) }
{
    let applier = applier_from(alloc, view.plan, found.position)?;
    match copier_from(view.plan, &found.reach, range) {
        Ok(copier) => Ok(copying(view, copier, applier)),
        Err(error) => {
            // By a call, so that its drop isn't proved part by part here.
            drop(applier);
            Err(error)
        }
    }
}

/// The copier's answer.
fn copied<V: Serve>(
    view: &FinishView<'_, V>,
    copier: Copier,
    applier: Applier,
    answer: &Answer,
) -> Stage
    requires seen { IsSeen view.now.plan.now view.now.journal.now view.now.live view.now.names.now }
    requires number { copier.number < length view.now.journal.now }
    requires chunk { chunks.StepFits copier.step }
    ensures stage { result ≡ copied view.now.plan.now (V.state view.now.server.now) (length view.now.journal.now) applier copier (copiers.took (length view.now.journal.now) copier answer.now) (copiers.progress copier answer.now) }
{
    let turn = view.journal.len() as u64;
    if let Progress::Unfit { column, number } = copier.progress(answer) {
        let refusal = Refusal {
            turn,
            column,
            number,
        };
        drop(applier);
        return Stage::RollingBack(UnfitRow::Copied(copier, refusal));
    }
    let mut copier = copier;
    copier.took(turn, answer);
    copying(view, copier, applier)
}

/// The applier's answer.
fn applied<V: Serve>(view: &FinishView<'_, V>, applier: Applier, answer: &Answer) -> Stage
    requires seen { IsSeen view.now.plan.now view.now.journal.now view.now.live view.now.names.now }
    requires batch { batches.StepFits applier.step }
    ensures stage { result ≡ applied view.now.plan.now (V.state view.now.server.now) (length view.now.journal.now) applier (appliers.took (length view.now.journal.now) applier answer.now) (appliers.progress applier answer.now) }
{
    let turn = view.journal.len() as u64;
    if let Progress::Unfit { column, number } = applier.progress(answer) {
        let refusal = Refusal {
            turn,
            column,
            number,
        };
        return Stage::RollingBack(UnfitRow::Applied(applier, refusal));
    }
    let mut applier = applier;
    applier.took(turn, answer);
    applying(view, applier)
}

impl Stage {
    /// The first stage, where this actor is the first that has a session.
    pub fn new(live: Option<Actor>) -> Stage
        ensures { result ≡ (if is_some live then Losing else Listing) }
    {
        if live.is_some() {
            Stage::Losing
        } else {
            Stage::Listing
        }
    }

    /// The stage behind an answer that is neither read nor copied. Nothing here takes memory.
    #[tactic(auto, unfolding(crate::specs::Finishes::took))]
    fn taken<V: Serve>(self, view: &FinishView<'_, V>, answer: &Answer) -> Stage
        requires seen { IsSeen view.now.plan.now view.now.journal.now view.now.live view.now.names.now }
        requires some { 1 ≤ length view.now.journal.now }
        requires fits { FitsStage (length view.now.journal.now - 1) self }
        ensures stage { wants_memory self ≡ false → result ≡ took view.now.plan.now view.now.journal.now (V.state view.now.server.now) answer.now self }
    {
        match self {
            Stage::Losing => Stage::new(view.live),
            Stage::Listing => listed(view.plan, answer),
            Stage::Clearing(found) => counting(view.plan, found),
            Stage::ReadingCounter(found) => counter_read(found, answer),
            Stage::SettingCounter(found, _) => Stage::Ranging(found),
            Stage::Copying(copier, applier) => copied(view, copier, applier, answer),
            Stage::Applying(applier) => applied(view, applier, answer),
            Stage::Exchanging => dropping(view.plan, true),
            Stage::DroppingLog(true) => Stage::DroppingOld,
            Stage::DroppingLog(false) | Stage::DroppingOld => Stage::Done,
            Stage::RollingBack(row) => Stage::Reverted(row),
            Stage::Reading(_) | Stage::Ranging(_) | Stage::Done | Stage::Reverted(_) => self,
        }
    }

    /// Takes the answer of the journal's last turn. Where there is no memory, the stage is as before.
    #[tactic(auto, unfolding(crate::specs::Finishes::took))]
    pub fn took<V: Serve>(
        &mut self,
        alloc: Global,
        view: &FinishView<'_, V>,
        answer: &Answer,
    ) -> Result<(), AllocError>
        requires seen { IsSeen view.now.plan.now view.now.journal.now view.now.live view.now.names.now }
        requires some { 1 ≤ length view.now.journal.now }
        requires fits { FitsStage (length view.now.journal.now - 1) self.old }
        ensures stage { OnOk result (self.new ≡ took view.now.plan.now view.now.journal.now (V.state view.now.server.now) answer.now self.old) }
        ensures still { OnErr result (self.new ≡ self.old) }
    {
        match (&*self, answer) {
            (Stage::Reading(listed), _) => {
                let stage = has_read(view.plan, *listed, checkpoint_in(alloc, answer)?);
                *self = stage;
            }
            (Stage::Ranging(found), Answer::Ends(range)) => {
                let stage = ranged(alloc, view, found, range)?;
                *self = stage;
            }
            (Stage::Ranging(_), _) => {}
            _ => {
                let stage = mem::replace(self, Stage::Done);
                *self = stage.taken(view, answer);
            }
        }
        Ok(())
    }
}

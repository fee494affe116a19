//! The tool before the first turn, with room for all that its tasks may fail, and the start of the work after the setup.

ghost use Rattle.std.specs.Prelude.{◌≡◌, ◌≢◌, ◌≤◌, ℕ, None, IfOk};
ghost use Rattle.plan_data.specs.PlanData.{PlanData};
ghost use Rattle.tool_program.specs.Tools.{new_tool, new_work, copy_range, Migrating};
ghost use Rattle.tool_state.specs.ToolState.Meanings.{work_of, tool_of};
ghost use Rattle.tool_state.specs.ToolState.Sound.{IsSound, IsSoundAt, IsFresh, HasSpaceFor, HasSpace, TriesGrow};

use crate::tool_state::tool::{Tool, Work};
use crate::tool_state::tries::Tries;
use base_values::{Bound, Duplicate};
use plan_data::Plan;
use server_model::KeyRange;
use std::alloc::{AllocError, Global};
use tool_program::chunk_copier::{Copier, CopyRange};
use tool_program::cutover_core::CutOver;
use tool_program::event_applier::Applier;
use tool_program::tool_setup::{Operator, Setup, has_counter, new_map, new_table};

/// The range of a setup, as the copier has it.
fn copy_range(range: Option<KeyRange>) -> Option<CopyRange>
    ensures { result ≡ copy_range range }
{
    match range {
        Some(range) => Some(CopyRange {
            low: Bound::Closed(range.least),
            top: range.greatest,
        }),
        None => None,
    }
}

fn new_copier(plan: &Plan) -> Result<Copier, AllocError>
    ensures { IfOk result (λ copier. copier ≡ (new_work plan.now plan.now.options.chunk_size 0 None).copier) }
{
    Ok(Copier::new(
        plan.migrated().copy()?,
        new_map(plan).copy()?,
        None,
        plan.options().chunk_size,
    ))
}

fn new_applier(alloc: Global, plan: &Plan) -> Result<Applier, AllocError>
    ensures { IfOk result (λ applier. applier ≡ (new_work plan.now plan.now.options.chunk_size 0 None).applier) }
{
    Ok(Applier::new(
        plan.migrated().copy()?,
        new_table(alloc, plan)?,
        new_map(plan).copy()?,
        0,
        plan.options().dml_batch_size,
    ))
}

impl Work {
    /// The machines at their start, with nothing to copy.
    fn new(alloc: Global, plan: &Plan) -> Result<Work, AllocError>
        ensures new { IfOk result (λ work. work_of work ≡ new_work plan.now plan.now.options.chunk_size 0 None) }
        ensures chunk { IfOk result (λ work. HasSpaceFor plan.now.options.turn_limit 0 work.chunk_tries) }
        ensures batch { IfOk result (λ work. HasSpaceFor plan.now.options.turn_limit 0 work.batch_tries) }
        ensures attempt { IfOk result (λ work. HasSpaceFor plan.now.options.turn_limit 0 work.attempt_tries) }
    {
        let options = plan.options();
        let room = options.turn_limit as usize;
        let chunk_tries = Tries::with_room(alloc, room)?;
        let batch_tries = Tries::with_room(alloc, room)?;
        let attempt_tries = Tries::with_room(alloc, room)?;
        let table = plan.migrated().copy()?;
        let copier = new_copier(plan)?;
        match new_applier(alloc, plan) {
            Ok(applier) => Ok(Work {
                copier,
                chunk_tries,
                applier,
                batch_tries,
                cutover: CutOver::new(
                    table,
                    options.drain_limit,
                    options.ok_to_drop_table,
                    has_counter(plan),
                ),
                attempt_tries,
            }),
            Err(error) => {
                // By a call, so that its drop isn't proved part by part here.
                drop(copier);
                Err(error)
            }
        }
    }
}

impl Tool {
    /// The tool before the first turn. In every turn that the plan allows a try of each task may fail, so each has the room.
    pub fn new(alloc: Global, plan: &Plan) -> Result<Tool, AllocError>
        ensures new { IfOk result (λ tool. tool_of tool ≡ new_tool plan.now) }
        ensures sound { IfOk result (λ tool. IsSound plan.now tool) }
        ensures space { IfOk result (λ tool. HasSpace plan.now.options.turn_limit 0 tool) }
    {
        let room = plan.options().turn_limit as usize;
        Ok(Tool {
            turns: 0,
            operator: Operator::new(&plan.options()),
            setup: Some(Setup::Listing),
            setup_tries: Tries::with_room(alloc, room)?,
            work: Work::new(alloc, plan)?,
            reason: None,
            spent: Tries::with_room(alloc, room)?,
        })
    }

    /// The work begins: the applier after `position` events, the copier with a range.
    pub(crate) fn begin(&mut self, position: u64, range: Option<KeyRange>)
        ensures turns { self.new.turns ≡ self.old.turns }
        ensures begun { (plan : PlanData) → IsFresh plan self.old.setup self.old.work → self.old.setup ≢ None → tool_of self.new ≡ record (tool_of self.old) { tool_phase = Migrating (new_work plan self.old.operator.size position range) } }
        ensures sound { (plan : PlanData) (most : ℕ) → IsSoundAt plan most self.old → IsSoundAt plan most self.new }
        ensures tries { TriesGrow self.old self.new }
    {
        self.setup = None;
        self.work.applier.position = position;
        self.work.copier.size = self.operator.size;
        self.work.copier.is_copied = range.is_none();
        self.work.copier.range = copy_range(range);
    }
}

//! What the three machines' answers make of the tool. Nothing here takes memory.

ghost use Rattle.std.specs.Prelude.{◌≡◌, ◌+◌, ◌<◌, ◌≤◌, ℕ, None};
ghost use Rattle.tool_program.specs.Tools.{copy_took, apply_took, is_failure, attempt_after, cutover_took, drains};
ghost use Rattle.tool_state.specs.ToolState.Meanings.{work_of, tool_phase_of, tool_of};
ghost use Rattle.tool_state.specs.ToolState.Sound.{IsSoundAt, IsRoomy, IsAttemptMore, TriesGrow};

use crate::tool_state::reason::Reason;
use crate::tool_state::tool::Tool;
use plan_data::Plan;
use server_model::{Answer, Progress, Task};
use tool_program::cutover_core::{Phase, Role};

/// Whether an attempt that might have succeeded ends now.
fn is_failure(before: Phase, after: Phase) -> bool
    ensures { result ≡ is_failure before after }
{
    (before.is_resting() || before.may_succeed()) && after.is_ending()
}

impl Tool {
    /// The copier's answer.
    pub(crate) fn copy_took(&mut self, plan: &Plan, answer: &Answer)
        requires begun { self.old.setup ≡ None }
        requires sound { IsSoundAt plan.now self.old.turns self.old }
        requires turns { self.old.turns < u64.MAX }
        requires room { IsRoomy self.old.spent.room self.old.work.chunk_tries }
        ensures took { tool_of self.new ≡ copy_took plan.now answer.now (work_of self.old.work) (tool_of self.old) }
        ensures sound { IsSoundAt plan.now (self.old.turns + 1) self.new }
        ensures turns { self.new.turns ≡ self.old.turns }
        ensures tries { TriesGrow self.old self.new }
    {
        match self.work.copier.progress(answer) {
            Progress::Going => self.work.copier.took(self.turns, answer),
            Progress::TaskDone => {
                self.work.copier.took(self.turns, answer);
                self.work.chunk_tries.clear();
            }
            Progress::TaskFailed => {
                self.work.copier.took(self.turns, answer);
                self.work.chunk_tries.add(self.turns);
                self.spend(plan, Task::Chunk(self.work.copier.number));
            }
            Progress::Unfit { column, number } => self.revert(Reason::CopyUnfit {
                turn: self.turns,
                column,
                number,
            }),
        }
    }

    /// The applier's answer.
    pub(crate) fn apply_took(&mut self, plan: &Plan, answer: &Answer)
        requires begun { self.old.setup ≡ None }
        requires sound { IsSoundAt plan.now self.old.turns self.old }
        requires room { IsRoomy self.old.spent.room self.old.work.batch_tries }
        ensures took { tool_of self.new ≡ apply_took plan.now answer.now (work_of self.old.work) (tool_of self.old) }
        ensures sound { IsSoundAt plan.now self.old.turns self.new }
        ensures attempts { self.new.work.attempt_tries ≡ self.old.work.attempt_tries }
        ensures spent { self.new.spent.room ≡ self.old.spent.room }
        ensures turns { self.new.turns ≡ self.old.turns }
        ensures tries { TriesGrow self.old self.new }
    {
        match self.work.applier.progress(answer) {
            Progress::Going => self.work.applier.took(self.turns, answer),
            Progress::TaskDone => {
                self.work.applier.took(self.turns, answer);
                self.work.batch_tries.clear();
            }
            Progress::TaskFailed => {
                self.work.applier.took(self.turns, answer);
                self.work.batch_tries.add(self.turns);
                self.spend(plan, Task::Batch(self.work.applier.position));
            }
            Progress::Unfit { column, number } => self.revert(Reason::ApplyUnfit {
                turn: self.turns,
                column,
                number,
            }),
        }
    }

    /// The cut-over left this phase: where its attempt failed by that, the turn counts.
    fn leave(&mut self, plan: &Plan, before: Phase)
        requires begun { self.old.setup ≡ None }
        requires room { IsRoomy self.old.spent.room self.old.work.attempt_tries }
        ensures took { tool_of self.new ≡ attempt_after plan.now (is_failure before self.old.work.cutover.phase) (work_of self.old.work) self.old.work.cutover (tool_of self.old) }
        ensures sound { (most : ℕ) → IsSoundAt plan.now most self.old → IsSoundAt plan.now most self.new }
        ensures turns { self.new.turns ≡ self.old.turns }
        ensures tries { IsAttemptMore self.old self.new }
    {
        if is_failure(before, self.work.cutover.phase) {
            self.work.attempt_tries.add(self.turns);
            self.spend(plan, Task::CutOver);
        }
    }

    /// An answer to one of the cut-over's three.
    pub(crate) fn cutover_took(&mut self, plan: &Plan, role: Role, answer: &Answer)
        requires begun { self.old.setup ≡ None }
        requires sound { IsSoundAt plan.now self.old.turns self.old }
        requires turns { self.old.turns < u64.MAX }
        requires room { IsRoomy self.old.spent.room self.old.work.attempt_tries }
        ensures took { tool_of self.new ≡ cutover_took plan.now role answer.now (work_of self.old.work) (tool_of self.old) }
        ensures sound { IsSoundAt plan.now (self.old.turns + 1) self.new }
        ensures turns { self.new.turns ≡ self.old.turns }
        ensures tries { TriesGrow self.old self.new }
    {
        let before = self.work.cutover.phase;
        self.work.cutover.took(role, answer);
        self.leave(plan, before);
    }

    /// After a turn of the applier: the attempt is drained, or has no turn left.
    #[tactic(auto, unfolding(tool_program::specs::CutoverCore::CutOvers::applier_turn))]
    pub(crate) fn drain(&mut self, plan: &Plan)
        requires room { IsRoomy self.old.spent.room self.old.work.attempt_tries }
        ensures took { tool_of self.new ≡ drains plan.now (tool_phase_of self.old) (tool_of self.old) }
        ensures sound { (most : ℕ) → IsSoundAt plan.now most self.old → IsSoundAt plan.now most self.new }
        ensures turns { self.new.turns ≡ self.old.turns }
        ensures tries { IsAttemptMore self.old self.new }
    {
        if self.setup.is_some() {
            return;
        }
        let before = self.work.cutover.phase;
        self.work.cutover.applier_turn(self.work.applier.hint);
        self.leave(plan, before);
    }
}

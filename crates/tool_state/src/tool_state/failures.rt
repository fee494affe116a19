//! A task that failed as often as it may, and the revert of all.

ghost use Rattle.std.specs.Prelude.{◌≡◌, ◌≤◌, ℕ, length, if◌then◌else◌};
ghost use Rattle.plan_data.specs.PlanData.{PlanData};
ghost use Rattle.tool_program.specs.Tools.{is_renamed, reverts, spends, is_reverting};
ghost use Rattle.tool_state.specs.ToolState.Meanings.{reason_of, tool_phase_of, tool_of, tries_of};
ghost use Rattle.tool_state.specs.ToolState.Sound.{IsSoundAt};

use crate::tool_state::reason::Reason;
use crate::tool_state::tool::Tool;
use crate::tool_state::tries::Tries;
use plan_data::Plan;
use server_model::Task;

impl Tool {
    /// Whether the RENAME was done, as the tool knows.
    pub fn is_renamed(&self) -> bool
        ensures { result ≡ is_renamed (tool_phase_of self.now) }
    {
        self.setup.is_none() && self.work.cutover.phase.is_done()
    }

    /// Whether all is reverted.
    pub fn is_reverting(&self) -> bool
        ensures { result ≡ is_reverting (tool_of self.now).reason }
    {
        self.reason.is_some()
    }

    /// The turns in which the task at hand failed.
    fn tries_of(&self, task: Task) -> &Tries
        ensures { result.now.turns ≡ tries_of task self.now }
    {
        match task {
            Task::Setup => &self.setup_tries,
            Task::Chunk(_) => &self.work.chunk_tries,
            Task::Batch(_) => &self.work.batch_tries,
            Task::CutOver => &self.work.attempt_tries,
        }
    }

    /// All is reverted from here on, unless the RENAME was done; the first reason stays.
    #[tactic(auto, unfolding(tool_program::specs::CutoverCore::CutOvers::reverted))]
    pub(crate) fn revert(&mut self, reason: Reason)
        ensures reverts { tool_of self.new ≡ reverts (reason_of reason self.old.spent.turns) (tool_of self.old) }
        ensures sound { (plan : PlanData) (most : ℕ) → IsSoundAt plan most self.old → IsSoundAt plan most self.new }
        ensures rest { self.new ≡ record self.old { work = record self.old.work { cutover = self.new.work.cutover }; reason = self.new.reason } }
    {
        if self.is_renamed() {
            return;
        }
        if self.reason.is_none() {
            self.reason = Some(reason);
        }
        match self.setup {
            None => self.work.cutover.revert(),
            Some(_) => {}
        }
    }

    /// Keeps the turns in which this task failed, where no reason stands yet.
    fn keep_tries(&mut self, task: Task)
        requires { length (tries_of task self.old) ≤ self.old.spent.room }
        ensures kept { self.new.spent.turns ≡ (if is_reverting (tool_of self.old).reason then self.old.spent.turns else tries_of task self.old) }
        ensures room { self.new.spent.room ≡ self.old.spent.room }
        ensures rest { self.new ≡ record self.old { spent = self.new.spent } }
    {
        if self.is_reverting() {
            return;
        }
        match task {
            Task::Setup => self.spent.copy_from(&self.setup_tries),
            Task::Chunk(_) => self.spent.copy_from(&self.work.chunk_tries),
            Task::Batch(_) => self.spent.copy_from(&self.work.batch_tries),
            Task::CutOver => self.spent.copy_from(&self.work.attempt_tries),
        }
    }

    /// A try of the task failed: with the last one that it may have all is reverted.
    pub(crate) fn spend(&mut self, plan: &Plan, task: Task)
        requires { length (tries_of task self.old) ≤ self.old.spent.room }
        ensures spends { tool_of self.new ≡ spends plan.now task (tries_of task self.old) (tool_of self.old) }
        ensures sound { (most : ℕ) → IsSoundAt plan.now most self.old → IsSoundAt plan.now most self.new }
        ensures room { self.new.spent.room ≡ self.old.spent.room }
        ensures rest { self.new ≡ record self.old { work = record self.old.work { cutover = self.new.work.cutover }; reason = self.new.reason; spent = self.new.spent } }
    {
        if self.tries_of(task).len() as u64 == u64::from(plan.options().default_retries) {
            self.keep_tries(task);
            self.revert(Reason::Spent(task));
        }
    }
}

//! What one turn makes of the tool. Nothing here takes memory.

ghost use Rattle.std.specs.Prelude.{◌≡◌, ◌+◌, ◌<◌, ℕ, Some};
ghost use Rattle.base_script.specs.declared.actor.Actor.TheVariants.{Apply};
ghost use Rattle.server_model.specs.States.{State, has_work};
ghost use Rattle.tool_program.specs.Tools.{setup_took, actor_took, command_took, took};
ghost use Rattle.tool_program.specs.ToolSetup.Meanings.{setup_of};
ghost use Rattle.tool_state.specs.ToolState.Meanings.{tool_phase_of, tool_of};
ghost use Rattle.tool_state.specs.ToolState.Sound.{IsSound, IsSoundAt, IsRoomy, HasRoom, TriesGrow, IsRead};

use crate::tool_state::reason::Reason;
use crate::tool_state::tool::Tool;
use base_script::{Actor, OperatorWord};
use plan_data::Plan;
use server_model::{Answer, Asked, AskedView, Entry, KeyRange, Task};
use tool_program::cutover_core::{Role, is_bad};
use tool_program::tool_setup::{Setup, SetupTook};

impl Tool {
    /// The inspector's answer in the setup, with a copy of the range that it has.
    fn setup_took(&mut self, plan: &Plan, setup: Setup, answer: &Answer, range: Option<KeyRange>)
        requires stands { self.old.setup ≡ Some setup }
        requires reported { IsRead (Some setup) range answer.now }
        requires sound { IsSoundAt plan.now self.old.turns self.old }
        requires room { HasRoom self.old }
        ensures took { tool_of self.new ≡ setup_took plan.now (setup_of setup) self.old.setup_tries.turns answer.now (tool_of self.old) }
        ensures sound { IsSoundAt plan.now (self.old.turns + 1) self.new }
        ensures turns { self.new.turns ≡ self.old.turns }
        ensures tries { TriesGrow self.old self.new }
    {
        if is_bad(answer) {
            self.setup = Some(Setup::Listing);
            self.setup_tries.add(self.turns);
            self.spend(plan, Task::Setup);
            return;
        }
        match setup.took(plan.table(), answer) {
            SetupTook::Goes(setup) => self.setup = Some(setup),
            SetupTook::Over(position) => self.begin(position, range),
        }
    }

    /// A session of the tool was answered; the copier and the applier take nothing more in a revert.
    fn actor_took(&mut self, plan: &Plan, actor: Actor, answer: &Answer, range: Option<KeyRange>)
        requires reported { IsRead self.old.setup range answer.now }
        requires sound { IsSoundAt plan.now self.old.turns self.old }
        requires turns { self.old.turns < u64.MAX }
        requires room { HasRoom self.old }
        ensures took { tool_of self.new ≡ actor_took plan.now actor answer.now (tool_phase_of self.old) (tool_of self.old) }
        ensures room { actor ≡ Apply → IsRoomy self.new.spent.room self.new.work.attempt_tries }
        ensures attempts { actor ≡ Apply → self.new.work.attempt_tries ≡ self.old.work.attempt_tries }
        ensures sound { IsSoundAt plan.now (self.old.turns + 1) self.new }
        ensures turns { self.new.turns ≡ self.old.turns }
        ensures tries { TriesGrow self.old self.new }
    {
        match (self.setup, actor) {
            (Some(setup), Actor::Insp) if !self.is_reverting() => {
                self.setup_took(plan, setup, answer, range);
            }
            (None, Actor::Insp) => self.cutover_took(plan, Role::Inspector, answer),
            (None, Actor::Lock) => self.cutover_took(plan, Role::Locker, answer),
            (None, Actor::Ren) => self.cutover_took(plan, Role::Renamer, answer),
            (None, Actor::Copy) if !self.is_reverting() => self.copy_took(plan, answer),
            (None, Actor::Apply) if !self.is_reverting() => self.apply_took(plan, answer),
            _ => {}
        }
    }
    /// The operator's command.
    fn command_took(&mut self, plan: &Plan, word: OperatorWord)
        requires sound { IsSoundAt plan.now self.old.turns self.old }
        requires turns { self.old.turns < u64.MAX }
        ensures took { tool_of self.new ≡ command_took word (tool_of self.old) }
        ensures sound { IsSoundAt plan.now (self.old.turns + 1) self.new }
        ensures turns { self.new.turns ≡ self.old.turns }
        ensures tries { TriesGrow self.old self.new }
    {
        self.operator.take(word);
        match (self.setup, word) {
            (None, OperatorWord::ChunkSize(size)) => self.work.copier.resize(size),
            (_, OperatorWord::Panic) => self.revert(Reason::Panicked(self.turns)),
            _ => {}
        }
    }

    /// One turn more of an actor of the tool, or of a client. Where the setup asks for the range of keys, a copy of the one that
    /// was read comes with it; and whether the session, where it was lost between calls, had a transaction, a table lock or a wait.
    #[tactic(auto, using(crate::proofs::TryTurns::read_lost, crate::proofs::TryTurns::tries_counted, crate::proofs::TryTurns::tries_stay), unfolding(tool_program::specs::Tools::took))]
    pub fn took(&mut self, plan: &Plan, entry: &Entry, range: Option<KeyRange>, had_work: bool)
        requires reported { IsRead self.old.setup range entry.now.answer }
        requires sound { IsSound plan.now self.old }
        requires turns { self.old.turns + 1 < u64.MAX }
        requires room { HasRoom self.old }
        ensures took { (state : State) → had_work ≡ has_work state entry.now.session → tool_of self.new ≡ took plan.now state (tool_of self.old) entry.now }
        ensures sound { IsSound plan.now self.new }
        ensures tries { TriesGrow self.old self.new }
    {
        self.turns += 1;
        match entry.asked.view() {
            AskedView::All(Asked::Command(word)) => self.command_took(plan, *word),
            AskedView::All(Asked::Cut) => {
                if had_work {
                    self.actor_took(plan, entry.actor, &Answer::Lost, None);
                }
            }
            AskedView::All(Asked::Call(_) | Asked::Poll) | AskedView::Lost(..) => {
                self.actor_took(plan, entry.actor, &entry.answer, range);
                if matches!(entry.actor, Actor::Apply) {
                    self.drain(plan);
                }
            }
        }
    }
}

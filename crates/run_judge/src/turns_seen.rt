//! What the rules ask of the turns before.

ghost use Rattle.std.specs.Prelude.{◌≡◌, ◌<◌, ◌+◌, ◌-◌, ◌^◌, ◌∷◌, ◌++◌, ◌||◌, [], List, OnOk};
ghost use Rattle.run_audit.specs.declared.line.TraceLine.{TraceLine as Line};
ghost use Rattle.run_audit.specs.Rules.{alters_in, due_cut_among, is_struck, is_within, keeps_losses, turns_in};
ghost use Rattle.tool_program.specs.JournalWords.KeptPlans.{struck_among};
ghost use Rattle.run_judge.specs.TurnsSeen.{IsSeen};

use crate::actor_marks::{ActorMarks, marks_of, take_line};
use crate::turn_rules::{alters_in, commands_after, cut_among, is_struck, keeps_commands};
use plan_data::Plan;
use run_actors::struck_among;
use run_audit::TraceLine;
use std::alloc::{AllocError, Global};

/// What is kept of the turns so far.
#[derive(Drop)]
pub struct TurnsSeen {
    /// How many turns were taken.
    pub turns: u64,
    /// What is kept of the actors.
    pub actors: Vec<ActorMarks>,
    /// How many commands the operator took.
    pub commands: u64,
    /// Whether the ALTER was done.
    pub has_altered: bool,
}

impl TurnsSeen {
    /// Before the first turn.
    #[tactic(auto, using(crate::proofs::SeenTurns::marks_begin, crate::proofs::SeenTurns::none_altered))]
    pub fn new(alloc: Global) -> TurnsSeen
        ensures { IsSeen [] result }
    {
        TurnsSeen {
            turns: 0,
            actors: Vec::new(alloc),
            commands: 0,
            has_altered: false,
        }
    }

    /// The number of the next turn.
    pub fn next_turn(&self) -> u64
        requires { self.now.turns < 2 ^ 64 - 1 }
        ensures { result ≡ self.now.turns + 1 }
    {
        self.turns + 1
    }

    /// Whether the next turn does the ALTER.
    pub fn alters(&self, line: &TraceLine) -> bool
        ensures { (before : List Line) → IsSeen before self.now → result ≡ alters_in before line.now }
    {
        alters_in(marks_of(self.actors.as_slice(), line.actor).renames, line)
    }

    /// Whether losses strike in the next turn where the plan has them.
    fn is_struck(&self, plan: &Plan, line: &TraceLine) -> bool
        requires { self.now.turns < 2 ^ 64 - 1 }
        ensures { (before : List Line) → IsSeen before self.now → result ≡ is_struck (due_cut_among before plan.now.faults) (struck_among line.now.actor (turns_in line.now.actor before + 1) plan.now.faults) line.now }
    {
        let actors = self.actors.as_slice();
        let losses = plan.faults().as_slice();
        let cut = cut_among(actors, self.next_turn(), losses);
        let own = marks_of(actors, line.actor).turns.saturating_add(1);
        let side = struck_among(line.actor, own, losses);
        is_struck(cut, side, line)
    }

    /// Whether losses strike in the next turn where the plan has them, and the operator takes its commands in order.
    pub fn keeps_losses(&self, plan: &Plan, line: &TraceLine) -> bool
        requires { self.now.turns < 2 ^ 64 - 1 }
        ensures { (before : List Line) → IsSeen before self.now → result ≡ keeps_losses plan.now before line.now }
    {
        self.is_struck(plan, line) && keeps_commands(plan, self.commands, line)
    }

    /// Whether the plan allows the next turn.
    pub fn is_within(&self, plan: &Plan) -> bool
        ensures { (before : List Line) → IsSeen before self.now → result ≡ is_within plan.now before }
    {
        self.turns < u64::from(plan.options().turn_limit)
    }

    /// Whether the ALTER was done, the next turn among those so far.
    fn altered_after(&self, line: &TraceLine) -> bool
        ensures { (before : List Line) → IsSeen before self.now → result ≡ (self.now.has_altered || alters_in before line.now) }
    {
        self.has_altered || self.alters(line)
    }

    /// After the next turn.
    pub fn take(&mut self, line: &TraceLine) -> Result<(), AllocError>
        requires { self.old.turns < 2 ^ 64 - 1 }
        ensures { (before : List Line) → IsSeen before self.old → OnOk result (IsSeen (before ++ line.now ∷ []) self.new) }
    {
        self.has_altered = self.altered_after(line);
        take_line(&mut self.actors, line)?;
        self.commands = commands_after(self.commands, line.asked);
        self.turns += 1;
        Ok(())
    }
}

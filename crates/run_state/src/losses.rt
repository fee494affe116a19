//! Which losses of sessions are due. Nothing here takes memory.

ghost use Rattle.std.specs.Prelude.{◌≡◌, true};
ghost use Rattle.tool_program.specs.JournalWords.KeptPlans.{cut_by, cut_among, cut_due, side_due};
ghost use Rattle.run_state.specs.Books.{is_planned, IsRunState};

use crate::run_state::RunState;
use base_script::{Actor, Loss, Side};
use run_actors::struck_among;

impl RunState<'_> {
    /// The actor whose session this loss takes away in the turn of this number.
    fn cut_by(&self, turn: u64, loss: &Loss) -> Option<Actor>
        requires { IsRunState self.now.plan.now self.now.journal.items self.now }
        ensures { result ≡ cut_by self.now.journal.items turn loss.now }
    {
        match loss {
            Loss::Nth { .. } => None,
            Loss::Turn {
                turn: number,
                actor,
            } => {
                if u64::from(*number) == turn && self.session(*actor).is_some() {
                    Some(*actor)
                } else {
                    None
                }
            }
        }
    }

    /// The actor whose session is lost between calls in the next turn.
    #[tactic(auto, unfolding(tool_program::specs::JournalWords::KeptPlans::cut_among))]
    pub fn cut_due(&self) -> Option<Actor>
        requires { IsRunState self.now.plan.now self.now.journal.items self.now }
        ensures { result ≡ cut_due self.now.plan.now self.now.journal.items }
    {
        let turn = self.journal.len() as u64 + 1;
        for loss in self.plan.faults().as_slice() {
            let cut = self.cut_by(turn, loss);
            if cut.is_some() {
                return cut;
            }
        }
        None
    }

    /// Where the actor's session is lost in its next turn.
    pub fn side_due(&self, actor: Actor) -> Option<Side>
        requires run_state { IsRunState self.now.plan.now self.now.journal.items self.now }
        requires planned { is_planned self.now.plan.now actor ≡ true }
        ensures { result ≡ side_due self.now.plan.now self.now.journal.items actor }
    {
        let number = self.turns_kept(actor) + 1;
        struck_among(actor, number, self.plan.faults().as_slice())
    }
}

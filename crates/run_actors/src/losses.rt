//! Where losses strike the turns of actors. Nothing here takes memory.

ghost use Rattle.std.specs.Prelude.{◌≡◌};
ghost use Rattle.tool_program.specs.JournalWords.KeptPlans.{struck_by, struck_among};

use crate::actors::same_actor;
use base_script::{Actor, Loss, Side};

/// Where this loss strikes the actor's turn of this number, from 1.
fn struck_by(actor: Actor, number: u64, loss: &Loss) -> Option<Side>
    ensures { result ≡ struck_by actor number loss.now }
{
    match (actor, loss) {
        (Actor::Op, _) | (_, Loss::Turn { .. }) => None,
        (
            actor,
            Loss::Nth {
                actor: other,
                n,
                side,
            },
        ) => {
            if same_actor(*other, actor) && u64::from(*n) == number {
                Some(*side)
            } else {
                None
            }
        }
    }
}

/// Where the first loss strikes that strikes the actor's turn of this number, from 1.
#[tactic(auto, unfolding(tool_program::specs::JournalWords::KeptPlans::struck_among))]
pub fn struck_among(actor: Actor, number: u64, losses: &[Loss]) -> Option<Side>
    ensures { result ≡ struck_among actor number losses.now }
{
    for loss in losses {
        let side = struck_by(actor, number, loss);
        if side.is_some() {
            return side;
        }
    }
    None
}

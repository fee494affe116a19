//! Losses of sessions.

ghost use Rattle.std.specs.Prelude.{◌≡◌, map};
ghost use Rattle.plan_orders.specs.Losses.{side_of, count_of, lost_actor, loss_at_turn, loss_at_call, loss_of_words, loss_of};
ghost use Rattle.plan_orders.specs.Refusals.{or_refused};
ghost use Rattle.base_values.specs.Faults.{Answers};

use crate::actors::actor_among;
use crate::fault::{OrderFault, OrderRefusal};
use crate::numbers::number_up_to;
use crate::spacing::{is_word, spaced_words};
use base_script::{Actor, Loss, Side};
use std::alloc::Global;

/// The greatest turn and the greatest call at which a session is lost. This project's rule.
pub const LOSS_LIMIT: u32 = 1_000_000;

const NO_LOSS: OrderFault = OrderFault::Refused(OrderRefusal::Loss);

fn side_of(word: &[u8]) -> Option<Side>
    ensures { result ≡ side_of word.now }
{
    if is_word(word, "before") {
        Some(Side::Before)
    } else if is_word(word, "after") {
        Some(Side::After)
    } else {
        None
    }
}

fn count_of(word: &[u8]) -> Result<u32, OrderFault>
    ensures { Answers (λ count. count) result (count_of word.now) }
{
    number_up_to(LOSS_LIMIT, word).ok_or(NO_LOSS)
}

fn lost_actor(clients: u32, word: &[u8]) -> Result<Actor, OrderFault>
    ensures { Answers (λ actor. actor) result (lost_actor clients word.now) }
{
    actor_among(clients, word).ok_or(OrderFault::Refused(OrderRefusal::LossActor))
}

/// `turn N A`.
#[tactic(auto, unfolding(crate::specs::Losses::loss_at_turn))]
fn loss_at_turn(clients: u32, turn: &[u8], actor: &[u8]) -> Result<Loss, OrderFault>
    ensures { Answers (λ loss. loss) result (loss_at_turn clients turn.now actor.now) }
{
    let turn = count_of(turn)?;
    let actor = lost_actor(clients, actor)?;
    Ok(Loss::Turn { turn, actor })
}

/// `A N before` and `A N after`.
#[tactic(auto, unfolding(crate::specs::Losses::loss_at_call))]
fn loss_at_call(clients: u32, actor: &[u8], n: &[u8], side: &[u8]) -> Result<Loss, OrderFault>
    ensures { Answers (λ loss. loss) result (loss_at_call clients actor.now n.now side.now) }
{
    let n = count_of(n)?;
    let side = side_of(side).ok_or(NO_LOSS)?;
    let actor = lost_actor(clients, actor)?;
    Ok(Loss::Nth { actor, n, side })
}

fn loss_of_words(clients: u32, words: &[&[u8]]) -> Result<Loss, OrderFault>
    ensures { Answers (λ loss. loss) result (loss_of_words clients (map (λ word. word.now) words.now)) }
{
    match words {
        [] => Err(NO_LOSS),
        [_] => Err(NO_LOSS),
        [_, _] => Err(NO_LOSS),
        [first, second, third] => {
            if is_word(first, "turn") {
                loss_at_turn(clients, second, third)
            } else {
                loss_at_call(clients, first, second, third)
            }
        }
        [_, _, _, _, ..] => Err(NO_LOSS),
    }
}

/// Reads a loss of a session of a plan with `clients` clients.
pub fn read_fault(alloc: Global, text: &str, clients: u32) -> Result<Loss, OrderFault>
    ensures { Answers (λ loss. loss) result (loss_of clients text.now) }
{
    let words = spaced_words(alloc, text)?;
    loss_of_words(clients, words.as_slice())
}

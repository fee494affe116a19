//! The words of actors.

ghost use Rattle.std.specs.Prelude.{◌≡◌};
ghost use Rattle.plan_orders.specs.Actors.{client_of, actor_of, is_among, actor_among};

use crate::numbers::number_of;
use crate::spacing::is_word;
use base_script::Actor;

fn client_of(word: &[u8]) -> Option<Actor>
    ensures { result ≡ client_of word.now }
{
    match word {
        [] => None,
        [letter, number @ ..] => {
            if *letter != b'c' {
                return None;
            }
            match number_of(number) {
                Some(number) => Some(Actor::Client(number)),
                None => None,
            }
        }
    }
}

/// The actor whose word this is, whether or not the plan has this many clients.
#[tactic(auto, unfolding(crate::specs::Actors::actor_of))]
pub fn actor_of(word: &[u8]) -> Option<Actor>
    ensures { result ≡ actor_of word.now }
{
    if is_word(word, "op") {
        Some(Actor::Op)
    } else if is_word(word, "insp") {
        Some(Actor::Insp)
    } else if is_word(word, "copy") {
        Some(Actor::Copy)
    } else if is_word(word, "apply") {
        Some(Actor::Apply)
    } else if is_word(word, "lock") {
        Some(Actor::Lock)
    } else if is_word(word, "ren") {
        Some(Actor::Ren)
    } else {
        client_of(word)
    }
}

/// Whether a plan with `clients` clients has the actor.
pub fn is_among(clients: u32, actor: Actor) -> bool
    ensures { result ≡ is_among clients actor }
{
    match actor {
        Actor::Client(number) => number <= clients,
        Actor::Op => true,
        Actor::Insp => true,
        Actor::Copy => true,
        Actor::Apply => true,
        Actor::Lock => true,
        Actor::Ren => true,
    }
}

/// The actor of a plan with `clients` clients whose word this is.
pub fn actor_among(clients: u32, word: &[u8]) -> Option<Actor>
    ensures { result ≡ actor_among clients word.now }
{
    let actor = actor_of(word)?;
    if is_among(clients, actor) {
        Some(actor)
    } else {
        None
    }
}

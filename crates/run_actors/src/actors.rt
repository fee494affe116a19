//! The actors in their fixed order. Nothing here takes memory.

ghost use Rattle.std.specs.Prelude.{◌≡◌, ◌<◌, length, slice_get, Some};
ghost use Rattle.server_model.specs.Entries.{same_actor, is_client};
ghost use Rattle.tool_program.specs.Orders.{actors};

use base_script::Actor;
use plan_data::Plan;

/// Whether the two are one actor.
pub fn same_actor(one: Actor, other: Actor) -> bool
    ensures { result ≡ same_actor one other }
{
    match (one, other) {
        (Actor::Op, Actor::Op) => true,
        (Actor::Insp, Actor::Insp) => true,
        (Actor::Copy, Actor::Copy) => true,
        (Actor::Apply, Actor::Apply) => true,
        (Actor::Lock, Actor::Lock) => true,
        (Actor::Ren, Actor::Ren) => true,
        (Actor::Client(one), Actor::Client(other)) => one == other,
        _ => false,
    }
}

/// Whether the actor is a client.
pub fn is_client(actor: Actor) -> bool
    ensures { result ≡ is_client actor }
{
    matches!(actor, Actor::Client(_))
}

/// How many actors the plan has.
#[tactic(auto, using(crate::proofs::ActorPlaces::actor_count))]
pub fn actor_count(plan: &Plan) -> usize
    ensures { result ≡ length (actors plan.now) }
{
    plan.clients().len() + 6
}

/// The actor at a place of the fixed order, from 0: operator, inspector, copier, applier, locker, renamer, then the clients.
#[tactic(auto, using(crate::proofs::ActorPlaces::few_actors, crate::proofs::ActorPlaces::client_at), unfolding(tool_program::specs::Orders::actors))]
pub fn actor_at(plan: &Plan, place: usize) -> Actor
    requires { place < length (actors plan.now) }
    ensures { slice_get (actors plan.now) place ≡ Some result }
{
    // For the prover: `clients` says that the clients are few, so their numbers fit a u32.
    let _few = plan.clients();
    match place {
        0 => Actor::Op,
        1 => Actor::Insp,
        2 => Actor::Copy,
        3 => Actor::Apply,
        4 => Actor::Lock,
        5 => Actor::Ren,
        _ => Actor::Client(place as u32 - 5),
    }
}

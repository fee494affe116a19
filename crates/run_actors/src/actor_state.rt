//! The state of an actor. Nothing here takes memory.

ghost use Rattle.std.specs.Prelude.{◌≡◌, ◌<◌, ◌^◌, map};
ghost use Rattle.std.specs.List.{AllByRecursion};
ghost use Rattle.tool_program.specs.JournalWords.Sessions.{session_left};
ghost use Rattle.run_actors.specs.ActorStates.{renames_after, turned, actor_state_after};

use crate::actors::same_actor;
use crate::alters::renames_away;
use base_script::Actor;
use base_values::Name;
use server_model::{Answer, Asked, AskedView, Entry};

/// What is kept of an actor.
#[derive(Clone, Copy)]
pub struct ActorState {
    /// Whose state it is.
    pub actor: Actor,
    /// Its live session.
    pub session: Option<u32>,
    /// How many turns it took, losses between calls aside.
    pub turns: u64,
    /// Whether the request that it waits with takes the migrated table's name away.
    pub renames: bool,
}

/// The session that a turn leaves its actor.
fn session_left(entry: &Entry) -> Option<u32>
    ensures { result ≡ session_left entry.now.asked entry.now.answer entry.now.session }
{
    match (entry.asked.view(), &entry.answer) {
        (AskedView::All(Asked::Command(_)), _) | (_, Answer::Lost) => None,
        _ => Some(entry.session),
    }
}

/// Whether the request that waits after a turn takes the table's name away, where the one before it did or didn't. A RENAME is kept
/// whole.
#[tactic(auto, using(crate::proofs::AlterTurns::lost_renames))]
pub(crate) fn renames_after(table: &Name, entry: &Entry, old: bool) -> bool
    ensures { result ≡ renames_after table.now entry.now.asked entry.now.answer old }
{
    match (entry.asked.view(), &entry.answer) {
        (AskedView::All(Asked::Call(request)), Answer::Waits { .. }) => {
            renames_away(table, request)
        }
        (AskedView::All(Asked::Poll), Answer::Waits { .. }) => old,
        _ => false,
    }
}

/// The state of the turn's actor after it.
fn turn(actor_state: &mut ActorState, table: &Name, entry: &Entry)
    requires { actor_state.old.turns < 2 ^ 32 }
    ensures { actor_state.new ≡ turned table.now entry.now actor_state.old }
{
    actor_state.session = session_left(entry);
    actor_state.renames = renames_after(table, entry, actor_state.renames);
    if !entry.asked.is_cut() {
        actor_state.turns += 1;
    }
}

fn actor_state_after(actor_state: &mut ActorState, table: &Name, entry: &Entry)
    requires { actor_state.old.turns < 2 ^ 32 }
    ensures { actor_state.new ≡ actor_state_after table.now entry.now actor_state.old }
{
    if same_actor(entry.actor, actor_state.actor) {
        turn(actor_state, table, entry);
    }
}

/// Marks a turn in the state of its actor.
pub fn take_turn(actor_states: &mut Vec<ActorState>, table: &Name, entry: &Entry)
    requires { AllByRecursion (λ actor_state. actor_state.turns < 2 ^ 32) actor_states.old.items }
    ensures { actor_states.new.items ≡ map (actor_state_after table.now entry.now) actor_states.old.items }
{
    for actor_state in actor_states.iter_mut() {
        actor_state_after(actor_state, table, entry);
    }
}

//! What one turn makes of the run state. Nothing here takes memory: the room for all turns was made when the run was opened.

ghost use Rattle.std.specs.Prelude.{◌≡◌, ◌+◌, ◌<◌, ◌^◌, [], ◌∷◌, ◌++◌, length, true};
ghost use Rattle.base_script.specs.declared.actor.Actor.TheVariants.{Client};
ghost use Rattle.server_model.specs.States.{load, has_work};
ghost use Rattle.tool_program.specs.JournalWords.Journals.{after_entry};
ghost use Rattle.tool_program.specs.Tools.{moment};
ghost use Rattle.tool_state.specs.ToolState.Sound.{HasRoom, IsRead, TriesGrow};
ghost use Rattle.proof_journals.specs.Run.Counts.{busy_count};
ghost use Rattle.run_actors.specs.ClientTurns.ActorStates.{DrawsAtMark};
ghost use Rattle.run_state.specs.Books.{is_planned, actor_state_in, renames_of, AreReached, HasRoomFor, IsRunState};

use crate::{RunState, script_of};
use base_script::Actor;
use run_actors::{is_alter_turn, take_turn};
use server_model::{Entry, KeyRange};

/// What a turn found out besides its entry.
#[derive(Drop)]
pub struct TurnFacts {
    /// A copy of the range of keys that its answer has, where the setup asks for it.
    pub range: Option<KeyRange>,
    /// Whether its session had a transaction, a table lock or a wait before it.
    pub had_work: bool,
    /// How many transactions of clients are open after it.
    pub load: u64,
    /// How many sessions of the tool's wait or are in a transaction after it.
    pub busy: u64,
}

/// How far a client is after its turn.
#[tactic(auto, using(crate::proofs::Clients::scripted, crate::proofs::Clients::actor_state_within))]
fn client_took(run_state: &mut RunState<'_>, client: u32, entry: &Entry)
    requires actor { entry.now.actor ≡ Client client }
    requires draws { DrawsAtMark entry.now }
    requires planned { is_planned run_state.old.plan.now (Client client) ≡ true }
    requires clients { AreReached run_state.old.plan.now run_state.old.journal.items 1 run_state.old.plan.now.clients run_state.old.clients.items }
    ensures clients { AreReached run_state.old.plan.now (run_state.old.journal.items ++ entry.now ∷ []) 1 run_state.old.plan.now.clients run_state.new.clients.items }
    ensures rest { run_state.new ≡ record run_state.old { clients = run_state.new.clients } }
{
    let Some(script) = script_of(run_state.plan, client) else {
        unreachable!();
    };
    run_state.clients[client as usize - 1].took(script, entry);
}

/// How far the clients are after a turn.
#[tactic(auto, using(crate::proofs::Clients::no_client, crate::proofs::Clients::reached_still))]
fn clients_took(run_state: &mut RunState<'_>, entry: &Entry)
    requires planned { is_planned run_state.old.plan.now entry.now.actor ≡ true }
    requires draws { DrawsAtMark entry.now }
    requires clients { AreReached run_state.old.plan.now run_state.old.journal.items 1 run_state.old.plan.now.clients run_state.old.clients.items }
    ensures clients { AreReached run_state.old.plan.now (run_state.old.journal.items ++ entry.now ∷ []) 1 run_state.old.plan.now.clients run_state.new.clients.items }
    ensures rest { run_state.new ≡ record run_state.old { clients = run_state.new.clients } }
{
    match entry.actor {
        Actor::Client(client) => client_took(run_state, client, entry),
        _ => {}
    }
}

/// Whether the request that the actor waits with takes the migrated table's name away.
fn renames(run_state: &RunState<'_>, actor: Actor) -> bool
    ensures { result ≡ renames_of (actor_state_in run_state.now.actor_states.items actor) }
{
    match run_state.actor_state(actor) {
        Some(actor_state) => actor_state.renames,
        None => false,
    }
}

/// Keeps what the next turn changes.
#[tactic(auto, using(crate::proofs::ActorStates::renames_is))]
fn keep(run_state: &mut RunState<'_>, entry: &Entry, facts: TurnFacts)
    requires run_state { IsRunState run_state.old.plan.now run_state.old.journal.items run_state.old }
    requires planned { is_planned run_state.old.plan.now entry.now.actor ≡ true }
    requires draws { DrawsAtMark entry.now }
    requires few { length run_state.old.journal.items + 1 < 2 ^ 32 }
    requires room { HasRoom run_state.old.tool }
    requires range { IsRead run_state.old.tool.setup facts.range entry.now.answer }
    requires work { facts.had_work ≡ has_work (moment run_state.old.plan.now run_state.old.journal.items).server entry.now.session }
    requires load { facts.load ≡ load (after_entry (moment run_state.old.plan.now run_state.old.journal.items).server entry.now) }
    requires busy { facts.busy ≡ busy_count (after_entry (moment run_state.old.plan.now run_state.old.journal.items).server entry.now) }
    ensures run_state { IsRunState run_state.old.plan.now (run_state.old.journal.items ++ entry.now ∷ []) run_state.new }
    ensures plan { run_state.new.plan.now ≡ run_state.old.plan.now }
    ensures journal { run_state.new.journal ≡ run_state.old.journal }
    ensures tries { TriesGrow run_state.old.tool run_state.new.tool }
{
    let plan = run_state.plan;
    let takes_away = renames(run_state, entry.actor);
    let alters = is_alter_turn(plan.table(), entry, takes_away);
    run_state
        .tool
        .took(plan, entry, facts.range, facts.had_work);
    run_state.notes.take(entry);
    clients_took(run_state, entry);
    take_turn(&mut run_state.actor_states, plan.table(), entry);
    run_state.load = facts.load;
    run_state.busy = facts.busy;
    run_state.is_altered = run_state.is_altered || alters;
}

/// Writes the next turn after the others, and keeps what it changes.
#[tactic(auto, using(crate::proofs::Keeping::written))]
pub fn take(run_state: &mut RunState<'_>, entry: Entry, facts: TurnFacts)
    requires run_state { IsRunState run_state.old.plan.now run_state.old.journal.items run_state.old }
    requires planned { is_planned run_state.old.plan.now entry.actor ≡ true }
    requires draws { DrawsAtMark entry }
    requires few { length run_state.old.journal.items + 1 < 2 ^ 32 }
    requires room { HasRoomFor run_state.old.plan.now run_state.old.journal.items run_state.old }
    requires less { length run_state.old.journal.items < run_state.old.plan.now.options.turn_limit }
    requires range { IsRead run_state.old.tool.setup facts.range entry.answer }
    requires work { facts.had_work ≡ has_work (moment run_state.old.plan.now run_state.old.journal.items).server entry.session }
    requires load { facts.load ≡ load (after_entry (moment run_state.old.plan.now run_state.old.journal.items).server entry) }
    requires busy { facts.busy ≡ busy_count (after_entry (moment run_state.old.plan.now run_state.old.journal.items).server entry) }
    ensures run_state { IsRunState run_state.old.plan.now (run_state.old.journal.items ++ entry ∷ []) run_state.new }
    ensures plan { run_state.new.plan.now ≡ run_state.old.plan.now }
    ensures journal { run_state.new.journal.items ≡ run_state.old.journal.items ++ entry ∷ [] }
    ensures room { HasRoomFor run_state.old.plan.now (run_state.old.journal.items ++ entry ∷ []) run_state.new }
{
    keep(run_state, &entry, facts);
    run_state.journal.push_reserved(entry);
}

//! What the run state says of the actors.

ghost use Rattle.std.specs.Prelude.{◌≡◌, option_map};
ghost use Rattle.tool_program.specs.JournalWords.Clients.{script_of, client_asks};
ghost use Rattle.tool_program.specs.JournalWords.Sessions.{live_session};
ghost use Rattle.run_actors.specs.ClientTurns.ClientCalls.{asked_in};
ghost use Rattle.run_state.specs.Books.{place_of, actor_state_in, session_of, turns_in, IsRunState};

use crate::run_state::RunState;
use base_script::{Actor, Script};
use plan_data::Plan;
use run_actors::client_turns::ClientCall;
use run_actors::{ActorState, same_actor};

/// The actor's place in the fixed order: operator, inspector, copier, applier, locker, renamer, then the clients.
fn place_of(actor: Actor) -> usize
    ensures { result ≡ place_of actor }
{
    match actor {
        Actor::Op => 0,
        Actor::Insp => 1,
        Actor::Copy => 2,
        Actor::Apply => 3,
        Actor::Lock => 4,
        Actor::Ren => 5,
        Actor::Client(client) => client as usize + 5,
    }
}

/// The script of a client; clients are numbered from 1.
pub fn script_of(plan: &Plan, client: u32) -> Option<&Script>
    ensures { option_map (λ script. script.now) result ≡ script_of client plan.now }
{
    if client == 0 {
        None
    } else {
        plan.clients().as_slice().get(client as usize - 1)
    }
}

impl RunState<'_> {
    /// What is kept of an actor; none where the plan has no such client.
    pub fn actor_state(&self, actor: Actor) -> Option<&ActorState>
        ensures { option_map (λ actor_state. actor_state.now) result ≡ actor_state_in self.now.actor_states.items actor }
    {
        match self.actor_states.as_slice().get(place_of(actor)) {
            Some(actor_state) if same_actor(actor_state.actor, actor) => Some(actor_state),
            _ => None,
        }
    }

    /// The session that is kept of an actor.
    fn session_kept(&self, actor: Actor) -> Option<u32>
        ensures { result ≡ session_of (actor_state_in self.now.actor_states.items actor) }
    {
        match self.actor_state(actor) {
            Some(actor_state) => actor_state.session,
            None => None,
        }
    }

    /// How many turns are kept of an actor.
    pub(crate) fn turns_kept(&self, actor: Actor) -> u64
        ensures { result ≡ turns_in (actor_state_in self.now.actor_states.items actor) }
    {
        match self.actor_state(actor) {
            Some(actor_state) => actor_state.turns,
            None => 0,
        }
    }

    /// The actor's live session.
    pub fn session(&self, actor: Actor) -> Option<u32>
        requires { IsRunState self.now.plan.now self.now.journal.items self.now }
        ensures { result ≡ live_session self.now.journal.items actor }
    {
        self.session_kept(actor)
    }

    /// What a client asks next; none where it is over.
    #[tactic(auto, using(crate::proofs::Clients::scripted, crate::proofs::Clients::actor_state_within, crate::proofs::Clients::client_reached, crate::proofs::Clients::stranger_silent, crate::proofs::Clients::asks_is))]
    pub(crate) fn client_call(&self, client: u32) -> Option<ClientCall<'_>>
        requires { IsRunState self.now.plan.now self.now.journal.items self.now }
        ensures { option_map asked_in result ≡ client_asks self.now.plan.now self.now.journal.items client }
    {
        match script_of(self.plan, client) {
            Some(script) => self.clients[client as usize - 1].next_call(script),
            None => None,
        }
    }
}

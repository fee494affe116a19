//! The run state of a plan without turns.

ghost use Rattle.std.specs.Prelude.{◌≡◌, [], ◌∷◌, map, IfOk};
ghost use Rattle.tool_program.specs.Orders.{actors};
ghost use Rattle.base_values.specs.ToolNames.{log_name};
ghost use Rattle.run_state.specs.Books.{free_actor_state, free_client, HasRoomFor, IsRunState};

use crate::run_state::RunState;
use base_script::Actor;
use base_values::{Duplicate, Names, Sequence};
use plan_data::{MigratedTable, Plan};
use run_actors::client_turns::ClientState;
use run_actors::{ActorState, actor_at, actor_count};
use std::alloc::{AllocError, Global};
use tool_program::note_writer::Notes;
use tool_state::tool_state::Tool;

/// The state of an actor before the first turn.
fn free_actor_state(actor: Actor) -> ActorState
    ensures { result ≡ free_actor_state actor }
{
    ActorState {
        actor,
        session: None,
        turns: 0,
        renames: false,
    }
}

/// The states of all actors before the first turn, in the fixed order.
#[tactic(auto, using(crate::proofs::FirstStates::one_more, crate::proofs::FirstStates::all_made))]
fn actor_states_of(alloc: Global, plan: &Plan) -> Result<Vec<ActorState>, AllocError>
    ensures { IfOk result (λ actor_states. actor_states.items ≡ map free_actor_state (actors plan.now)) }
{
    let count = actor_count(plan);
    let mut actor_states = Vec::with_capacity(alloc, count)?;
    for place in 0..count {
        actor_states.push(free_actor_state(actor_at(plan, place)))?;
    }
    Ok(actor_states)
}

/// The states of the clients before the first turn.
fn client_states(alloc: Global, plan: &Plan) -> Result<Vec<ClientState>, AllocError>
    ensures { IfOk result (λ actor_states. actor_states.items ≡ map free_client plan.now.clients) }
{
    let mut actor_states = Vec::new(alloc);
    for _script in plan.clients().as_slice() {
        actor_states.push(ClientState {
            place: 0,
            is_inside: false,
            waits: false,
            is_lost: false,
        })?;
    }
    Ok(actor_states)
}

/// The tables whose events the applier reads.
fn names_of(alloc: Global, table: &MigratedTable) -> Result<Names, AllocError>
    ensures { IfOk result (λ names. names ≡ table.now ∷ log_name table.now ∷ []) }
{
    Ok(Sequence::from_vec(vec![in alloc; table.name().copy()?, table.log_name().copy()?]?))
}

impl<'a> RunState<'a> {
    /// The run state of the plan without turns, with room for all that the plan allows.
    pub fn open(alloc: Global, plan: &'a Plan) -> Result<RunState<'a>, AllocError>
        ensures run_state { IfOk result (λ run_state. IsRunState plan.now [] run_state) }
        ensures plan { IfOk result (λ run_state. run_state.plan.now ≡ plan.now) }
        ensures journal { IfOk result (λ run_state. run_state.journal.items ≡ []) }
        ensures room { IfOk result (λ run_state. HasRoomFor plan.now [] run_state) }
    {
        Ok(RunState {
            plan,
            journal: Vec::with_capacity(alloc, plan.options().turn_limit as usize)?,
            tool: Tool::new(alloc, plan)?,
            notes: Notes::new(),
            names: names_of(alloc, plan.migrated())?,
            actor_states: actor_states_of(alloc, plan)?,
            clients: client_states(alloc, plan)?,
            load: 0,
            busy: 0,
            is_altered: false,
        })
    }
}

//! The record.

use base_values::Names;
use plan_data::Plan;
use run_actors::ActorState;
use run_actors::client_turns::ClientState;
use server_model::Entry;
use tool_program::note_writer::Notes;
use tool_state::tool_state::Tool;

/// The journal of a run of a plan, with what is kept of it.
#[derive(Drop)]
pub struct RunState<'a> {
    /// The plan, which the whole run borrows.
    pub plan: &'a Plan,
    /// The turns so far.
    // A plain list with room for all turns that the plan allows, so that no turn takes memory for its entry. A `Journal` is
    // made of it once, at the end.
    pub journal: Vec<Entry>,
    /// How far the tool is.
    pub tool: Tool,
    /// How far the notes are.
    pub notes: Notes,
    /// The tables whose events the applier reads.
    pub names: Names,
    /// What is kept of each actor, in the fixed order.
    pub actor_states: Vec<ActorState>,
    /// How far each client is in its script, in the clients' order.
    pub clients: Vec<ClientState>,
    /// How many transactions of clients are open.
    pub load: u64,
    /// How many sessions of the tool's wait or are in a transaction.
    pub busy: u64,
    /// Whether the ALTER was done.
    pub is_altered: bool,
}

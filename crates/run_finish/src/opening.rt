//! The beginning: whether a run has a checkpoint, the room for the new tool's turns, and what is kept of the run.

ghost use Rattle.std.specs.Prelude.{◌≡◌, [], ◌∷◌, false, length, IfOk};
ghost use Rattle.base_values.specs.ToolNames.{log_name};
ghost use Rattle.tool_finish.specs.Checkpoints.{has_checkpoint};
ghost use Rattle.run_finish.specs.Sessions.{first_stage, sessions_at};

use crate::finish_state::FinishState;
use crate::sessions::{LiveSession, first_actor, sessions_of};
use base_values::Name;
use run_state::RunState;
use run_turns::Run;
use run_turns::due_turns::migration_run::Counts;
use server_api::Serve;
use std::alloc::{AllocError, Global};
use table_store::paged_tables::Tables;
use tool_finish::{Stage, has_written};
use tool_notes::checkpoint_of;

/// The changelog's name.
fn log_name<'a>(run_state: &'a RunState<'_>) -> &'a Name
    requires { run_state.now.names ≡ run_state.now.plan.now.table ∷ log_name run_state.now.plan.now.table ∷ [] }
    ensures { result.now ≡ log_name run_state.now.plan.now.table }
{
    &run_state.names.as_slice()[1]
}

/// Whether the setup is over, a checkpoint was written, and the changelog exists.
#[tactic(auto, unfolding(tool_finish::specs::Checkpoints::has_checkpoint))]
pub fn has_checkpoint<V: Serve>(run: &Run<'_, V>) -> bool
    ensures { result ≡ has_checkpoint run.now.plan run.now.journal }
{
    let run_state = run.run_state();
    let is_migrating = run_state.tool.setup.is_none();
    let is_written = has_written(run.journal());
    let exists = run.server().tables().stands(log_name(run_state));
    is_migrating && is_written && exists
}

/// The position of the checkpoint in the changelog's first row; 0 where there is none.
fn position_in(alloc: Global, tables: &Tables, log: &Name) -> Result<u64, AllocError> {
    let Some(table) = tables.find(log) else {
        return Ok(0);
    };
    let Some(row) = table.rows().next() else {
        return Ok(0);
    };
    match checkpoint_of(alloc, row.as_slice())? {
        Some(checkpoint) => Ok(checkpoint.position),
        None => Ok(0),
    }
}

/// How many turns the new tool takes at most: four for a row of the migrated table, six for an event that is to be applied, and 90
/// besides.
fn most_turns<V: Serve>(alloc: Global, run: &Run<'_, V>) -> Result<usize, AllocError> {
    let run_state = run.run_state();
    let tables = run.server().tables();
    let rows = match tables.find(run_state.plan.table()) {
        Some(table) => table.len(),
        None => 0,
    };
    let position = position_in(alloc, tables, log_name(run_state))?;
    let events = run.server().unread(position, &run_state.names) as usize;
    let copied = rows.saturating_mul(4);
    let applied = events.saturating_mul(6);
    Ok(copied.saturating_add(applied).saturating_add(90))
}

/// Makes the room for the new tool's turns, and lists the live sessions.
pub fn prepared<V: Serve>(
    alloc: Global,
    run: &mut Run<'_, V>,
) -> Result<Vec<LiveSession>, AllocError>
    ensures sessions { IfOk result (λ sessions. sessions.items ≡ sessions_at run.old.plan run.old.journal) }
    ensures same { run.new ≡ run.old }
{
    let turns = most_turns(alloc, run)?;
    run.reserve(turns)?;
    sessions_of(alloc, run.run_state().actor_states.as_slice())
}

/// What is kept of a run is what is kept of it at its end.
pub fn begun<'a>(run_state: RunState<'a>, sessions: Vec<LiveSession>, made: u32) -> FinishState<'a>
    ensures { result ≡ record { plan = run_state.entry.plan; journal = run_state.entry.journal; run_turns = length run_state.entry.journal.items; names = run_state.entry.names; sessions = sessions; counts = record { load = run_state.entry.load; busy = run_state.entry.busy }; made = made; stage = first_stage sessions.items; is_answered = false } }
{
    FinishState {
        plan: run_state.plan,
        run_turns: run_state.journal.len(),
        counts: Counts {
            load: run_state.load,
            busy: run_state.busy,
        },
        made,
        stage: Stage::new(first_actor(sessions.as_slice())),
        is_answered: false,
        names: run_state.names,
        journal: run_state.journal,
        sessions,
    }
}

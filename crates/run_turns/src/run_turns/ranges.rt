//! The range of keys that a turn may get, copied before the turn.

ghost use Rattle.std.specs.Prelude.{◌≡◌, true, None, IfOk, OnErr};
ghost use Rattle.table_store.specs.Databases.{database};
ghost use Rattle.tool_program.specs.ToolSetup.Meanings.{range_reported};
ghost use Rattle.run_turns.specs.DueTurns.DueCalls.Ranges.{range_in, is_heard, reads_range, ahead_on, IsReported};

use crate::due_turns::migration_run::Turn;
use base_script::Actor;
use base_values::Name;
use run_state::RunState;
use server_api::paged_answers::ends;
use server_model::{Answer, Asked, AskedView, KeyRange, TurnAsked};
use std::alloc::{AllocError, Global};
use table_store::paged_tables::Tables;
use tool_program::tool_setup::Setup;

/// The range of the table of this name; none where it has no row, or doesn't exist.
#[tactic(auto, using(crate::proofs::RunTurns::Ranging::range_by_ends))]
fn range_in(alloc: Global, name: &Name, tables: &Tables) -> Result<Option<KeyRange>, AllocError>
    ensures { IfOk result (λ range. range ≡ range_in name.now (database tables.now)) }
{
    Ok(range_of(ends(alloc, tables, name)?))
}

/// Whether what is asked is a call or a poll.
fn calls(asked: &TurnAsked) -> bool
    ensures { result ≡ is_heard None asked.now }
{
    match asked.view() {
        AskedView::All(Asked::Call(_) | Asked::Poll) | AskedView::Lost(..) => true,
        AskedView::All(Asked::Command(_) | Asked::Cut) => false,
    }
}

/// Whether the turn may get a range: the inspector's, once the setup asks for one, and where its session isn't lost in the turn.
fn reads_range(setup: Option<Setup>, turn: &Turn) -> bool
    ensures { result ≡ reads_range setup turn.now }
{
    let reaches = matches!(setup, Some(Setup::Reaching(_)));
    let inspects = matches!(turn.actor, Actor::Insp);
    reaches && inspects && turn.side.is_none() && calls(&turn.asked)
}

/// The range that the turn may get, from the tables before it. No other turn takes memory for one.
pub fn ahead_of(
    alloc: Global,
    run_state: &RunState<'_>,
    tables: &Tables,
    turn: &Turn,
) -> Result<Option<KeyRange>, AllocError>
    ensures range { IfOk result (λ range. range ≡ ahead_on run_state.now.plan.now (database tables.now) run_state.now.tool.setup turn.now) }
    ensures costs { OnErr result (reads_range run_state.now.tool.setup turn.now ≡ true) }
{
    if reads_range(run_state.tool.setup, turn) {
        range_in(alloc, run_state.plan.table(), tables)
    } else {
        Ok(None)
    }
}

/// The range that an answer tells.
fn range_of(answer: Answer) -> Option<KeyRange>
    ensures { result ≡ range_reported answer }
{
    match answer {
        Answer::Ends(range) => range,
        _ => None,
    }
}

/// The range that an answer tells, where that is the one that was copied ahead.
pub fn range_reported(ahead: Option<KeyRange>, answer: &Answer) -> Option<KeyRange>
    ensures { IsReported ahead answer.now → result ≡ range_reported answer.now }
{
    match answer {
        Answer::Ends(_) => ahead,
        _ => None,
    }
}

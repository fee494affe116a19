//! The RENAMEs that a run has in hand for those that are lost before they are done: a journal keeps a RENAME whole.

ghost use Rattle.std.specs.Prelude.{◌≡◌, ◌<◌, ◌++◌, ◌∷◌, [], length, map, IfOk};
ghost use Rattle.tool_program.specs.CutoverCore.Attempts.{exchange};
ghost use Rattle.run_turns.specs.InHand.{is_exchange};

use plan_data::Plan;
use run_state::NextAsked;
use server_model::Request;
use std::alloc::{AllocError, Global};
use tool_program::cutover_core::{CutOverCall, exchange};
use tool_state::NextCall;

/// The RENAME of the exchange, once for each loss of the plan.
pub(crate) fn renames_of(alloc: Global, plan: &Plan) -> Result<Vec<Request>, AllocError>
    ensures { IfOk result (λ renames. renames.items ≡ map (λ loss. exchange plan.now.table) plan.now.faults) }
{
    let mut renames = Vec::new(alloc);
    for _loss in plan.faults().as_slice() {
        let rename = exchange(alloc, plan.migrated())?;
        renames.push(rename)?;
    }
    Ok(renames)
}

/// Takes a RENAME out of those in hand.
pub(crate) fn take_rename(renames: &mut Vec<Request>) -> Request
    requires { 0 < length renames.old.items }
    ensures { renames.old.items ≡ renames.new.items ++ result ∷ [] }
{
    match renames.pop() {
        Some(rename) => rename,
        None => unreachable!(),
    }
}

/// Whether the exchange is asked.
pub(crate) fn is_exchange(next: NextAsked<'_>) -> bool
    ensures { result ≡ is_exchange next.entry }
{
    matches!(
        next,
        NextAsked::Tool(NextCall::CutOver(CutOverCall::Exchange))
    )
}

//! Which call comes next.

ghost use Rattle.std.specs.Prelude.{◌≡◌, IfOk};
ghost use Rattle.tool_finish.specs.Finishes.{first_live, calls, cuts, reads_checkpoint, rolls_back, next};

use crate::stage::{Stage, UnfitRow};
use crate::view::FinishView;
use base_script::{Actor, Condition, Set, Shown, Statement};
use base_values::{Duplicate, Name, Sequence, Value};
use plan_data::Plan;
use server_api::Serve;
use server_model::{Asked, Request};
use std::alloc::{AllocError, Global};
use tool_program::cutover_core::exchange;

/// An actor, and what it asks.
pub type Asking = (Actor, Asked);

fn calls(actor: Actor, request: Request) -> Option<Asking>
    ensures { result ≡ calls actor request }
{
    Some((actor, Asked::Call(request)))
}

fn cuts(live: Option<Actor>) -> Option<Asking>
    ensures { result ≡ cuts live }
{
    match live {
        Some(actor) => Some((actor, Asked::Cut)),
        None => None,
    }
}

/// The row with id 0 of the changelog is read.
fn reads_checkpoint(alloc: Global, plan: &Plan) -> Result<Request, AllocError>
    ensures { IfOk result (λ request. request ≡ reads_checkpoint plan.now) }
{
    let id = Set {
        column: Name::new(alloc, "id")?,
        value: Value::Num(0),
    };
    Ok(Request::Do(Statement::Select {
        table: plan.migrated().log_name().copy()?,
        shown: Shown::All,
        condition: Condition::Equal(Sequence::from_vec(vec![in alloc; id]?)),
    }))
}

/// Whose row didn't fit.
fn rolls_back(row: &UnfitRow) -> Actor
    ensures { result ≡ rolls_back row.now }
{
    match row {
        UnfitRow::Copied(..) => Actor::Copy,
        UnfitRow::Applied(..) => Actor::Apply,
    }
}

impl Stage {
    /// The call that comes next, and whose it is; none where the new tool is over.
    #[tactic(auto, unfolding(crate::specs::Finishes::next))]
    pub fn next<V: Serve>(
        &self,
        alloc: Global,
        view: &FinishView<'_, V>,
    ) -> Result<Option<Asking>, AllocError>
        requires { view.now.live ≡ first_live view.now.plan.now view.now.journal.now }
        ensures { IfOk result (λ asking. asking ≡ next view.now.plan.now view.now.journal.now self.now) }
    {
        let table = view.plan.migrated();
        Ok(match self {
            Stage::Losing => cuts(view.live),
            Stage::Listing => calls(Actor::Insp, Request::ShowTables),
            Stage::Reading(_) => calls(Actor::Insp, reads_checkpoint(alloc, view.plan)?),
            Stage::Clearing(_) | Stage::DroppingOld => {
                calls(Actor::Insp, Request::Drop(table.old_name().copy()?))
            }
            Stage::ReadingCounter(_) => calls(
                Actor::Insp,
                Request::ShowCounter(table.name().copy()?),
            ),
            Stage::SettingCounter(_, number) => calls(
                Actor::Insp,
                Request::SetCounter {
                    table: table.ghost_name().copy()?,
                    number: *number,
                },
            ),
            Stage::Ranging(_) => calls(Actor::Insp, Request::Ends(table.name().copy()?)),
            Stage::Copying(copier, _) => match copier.next_call(view.journal) {
                Some(call) => calls(Actor::Copy, copier.request(alloc, view.journal, call)?),
                None => None,
            },
            Stage::Applying(applier) => calls(Actor::Apply, applier.next(alloc, view.journal)?),
            Stage::Exchanging => calls(Actor::Ren, exchange(alloc, table)?),
            Stage::DroppingLog(_) => calls(Actor::Insp, Request::Drop(table.log_name().copy()?)),
            Stage::RollingBack(row) => calls(rolls_back(row), Request::Rollback),
            Stage::Done | Stage::Reverted(_) => None,
        })
    }
}

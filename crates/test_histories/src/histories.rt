//! Histories, one thing after the other.

ghost use Rattle.std.specs.Prelude.{◌≡◌, ◌∷◌, [], ◌++◌, List, IfOk};
ghost use Rattle.std.specs.Option.{option_map};
ghost use Rattle.server_model.specs.Alone.{alone};
ghost use Rattle.tool_program.specs.JournalWords.Serials.{altered_database};
ghost use Rattle.std.specs.List.{AllByRecursion};
ghost use Rattle.proof_schemas.specs.Alters.Laws.{IsClause};
ghost use Rattle.test_histories.specs.Histories.{with_replies, serial_run, goes_on, AreValid, IfValid};
ghost use Rattle.test_histories.specs.declared.histories.HistoryStep.{HistoryStep};

use crate::alters::altered_database;
use crate::runs::alone;
use base_values::{Duplicate, Sequence};
use plan_data::Plan;
use server_model::{Replies, TxnLines};
use std::alloc::{AllocError, Global};
use test_model::PlainTables;

/// What happened to the clients' tables.
#[derive(Drop)]
pub enum HistoryStep {
    /// A transaction of these lines ended.
    Txn(TxnLines),
    /// The ALTER was done.
    Alter,
}

/// What came of a history.
#[derive(Drop)]
pub struct InOrder {
    /// The replies, a list a transaction.
    pub replies: Sequence<Replies>,
    /// The tables that are left.
    pub tables: PlainTables,
}

/// A transaction more.
fn with_txn(alloc: Global, so_far: InOrder, lines: &TxnLines) -> Result<InOrder, AllocError>
    ensures replies { IfOk result (λ next. next.replies ≡ so_far.replies ++ (alone so_far.tables lines.now).replies ∷ []) }
    ensures tables { IfOk result (λ next. next.tables ≡ (alone so_far.tables lines.now).tables) }
{
    let txn = alone(alloc, &so_far.tables, lines.as_slice())?;
    let mut replies = so_far.replies;
    replies.push(txn.replies)?;
    Ok(InOrder {
        replies,
        tables: txn.tables,
    })
}

/// The ALTER, where it can be done.
fn with_alter(alloc: Global, plan: &Plan, so_far: InOrder) -> Result<Option<InOrder>, AllocError>
    requires { AreValid so_far.tables }
    ensures { IfOk result (λ next. next ≡ option_map (λ after. record so_far { tables = after }) (altered_database plan.now so_far.tables)) }
{
    match altered_database(alloc, plan, so_far.tables.as_slice())? {
        Some(tables) => Ok(Some(InOrder {
            replies: so_far.replies,
            tables,
        })),
        None => Ok(None),
    }
}

/// One thing more.
fn step(
    alloc: Global,
    plan: &Plan,
    so_far: InOrder,
    history_step: &HistoryStep,
) -> Result<Option<InOrder>, AllocError>
    requires valid { AreValid so_far.tables }
    requires clauses { AllByRecursion IsClause plan.now.alter }
    ensures goes { IfOk result (λ next. (rest : List HistoryStep) → goes_on plan.now rest next ≡ with_replies so_far.replies (serial_run plan.now so_far.tables (history_step.now ∷ rest))) }
    ensures valid { IfOk result IfValid }
{
    match history_step {
        HistoryStep::Txn(lines) => Ok(Some(with_txn(alloc, so_far, lines)?)),
        HistoryStep::Alter => with_alter(alloc, plan, so_far),
    }
}

/// What happened, one thing after the other on these tables, with nobody beside it: the replies of each transaction, and the
/// tables that are left; none where the ALTER can't be done.
pub fn run_in_order(
    alloc: Global,
    plan: &Plan,
    tables: PlainTables,
    history_steps: &[HistoryStep],
) -> Result<Option<InOrder>, AllocError>
    requires valid { AreValid tables }
    requires clauses { AllByRecursion IsClause plan.now.alter }
    ensures { IfOk result (λ left. left ≡ serial_run plan.now tables history_steps.now) }
{
    let mut so_far = InOrder {
        replies: Sequence::new(alloc),
        tables,
    };
    for history_step in history_steps {
        so_far = match step(alloc, plan, so_far, history_step)? {
            Some(next) => next,
            None => return Ok(None),
        };
    }
    Ok(Some(so_far))
}

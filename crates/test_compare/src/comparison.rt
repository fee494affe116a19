//! The comparison.

ghost use Rattle.std.specs.Prelude.{◌≡◌, map, IfOk};
ghost use Rattle.proof_plans.specs.ReadPlans.Laws.{WasRead};
ghost use Rattle.test_histories.specs.Histories.{serial_run, history_step_of};
ghost use Rattle.test_histories.specs.JournalPasts.Walks.{item_as};

use crate::clients::push_clients;
use crate::execution::{Said, statement_result};
use crate::history::{has_alter, push_history};
use crate::replies::are_the_same;
use crate::tables::push_tables;
use base_values::{Sequence, Text};
use plan_data::Plan;
use plan_reader::PlanFault;
use proof_plans::read_accepted_plan;
use server_model::{Journal, Replies};
use std::alloc::{AllocError, Global};
use test_histories::journal_pasts::{PastItem, Reached, Walked, history_steps_of, walk};
use test_histories::{InOrder, alone, run_in_order, tables_left};
use test_model::{PlainTables, plain_tables};

/// What the lines of the open transactions are answered alone, on the tables that the history left: a list a client.
fn open_replies(
    alloc: Global,
    tables: &PlainTables,
    clients: &[Reached<'_>],
) -> Result<Sequence<Replies>, AllocError> {
    let mut all = Sequence::new(alloc);
    for client in clients {
        all.push(alone(alloc, tables, client.lines())?.replies)?;
    }
    Ok(all)
}

/// Whether the transactions that ended got these replies, a list a transaction.
fn got_these(items: &[PastItem], replies: &[Replies]) -> bool {
    let mut rest = replies;
    for item in items {
        if let PastItem::Txn(past) = item {
            let Some((own, others)) = rest.split_first() else {
                return false;
            };
            if !are_the_same(past.replies.as_slice(), own.as_slice()) {
                return false;
            }
            rest = others;
        }
    }
    rest.is_empty()
}

/// Whether the clients got these replies in their open transactions, a list a client.
fn go_on_with_these(clients: &[Reached<'_>], replies: &[Replies]) -> bool {
    clients.len() == replies.len()
        && clients.iter().zip(replies).all(|(client, own)| are_the_same(
            client.replies(),
            own.as_slice(),
        ))
}

/// What the report says of clients and tables, where the history gave this.
fn middle(
    alloc: Global,
    plan: &Plan,
    walked: &Walked<'_>,
    ran: &InOrder,
    open: &[Replies],
) -> Result<Text, AllocError> {
    let mut text = Text::new(alloc);
    if plan.options().show_replies {
        push_clients(&mut text, walked, ran.replies.as_slice(), open)?;
    }
    let left = tables_left(alloc, plan, ran.tables.as_slice())?;
    push_tables(&mut text, plan.options().show_tables, left.as_slice())?;
    Ok(text)
}

/// The line of the history, where the report has it.
fn history_line(alloc: Global, plan: &Plan, walked: &Walked<'_>) -> Result<Text, AllocError> {
    let mut text = Text::new(alloc);
    if plan.options().show_history {
        push_history(&mut text, walked.items.as_slice())?;
    }
    Ok(text)
}

/// What the report must say, where the history gave this.
fn wanted(
    alloc: Global,
    plan: &Plan,
    walked: &Walked<'_>,
    ran: &InOrder,
    open: &[Replies],
) -> Result<Said, AllocError> {
    Ok(Said {
        altered: has_alter(walked.items.as_slice()),
        middle: middle(alloc, plan, walked, ran, open)?,
        history: history_line(alloc, plan, walked)?,
        shows_turns: plan.options().show_turns,
    })
}

/// Whether what the history gave alone is what the journal and the report have.
fn is_given(
    alloc: Global,
    plan: &Plan,
    walked: &Walked<'_>,
    ran: &InOrder,
    report: &str,
) -> Result<bool, AllocError> {
    let open = open_replies(alloc, &ran.tables, walked.clients.as_slice())?;
    let said = wanted(alloc, plan, walked, ran, open.as_slice())?;
    Ok(
        got_these(walked.items.as_slice(), ran.replies.as_slice())
            && go_on_with_these(walked.clients.as_slice(), open.as_slice())
            && statement_result(report, &said),
    )
}

/// What happened gives alone, from the plan's opening tables on; none where the ALTER can't be done.
#[tactic(auto, using(crate::proofs::Read::read_valid, crate::proofs::Read::read_clauses))]
fn run_reference(
    alloc: Global,
    plan: &Plan,
    items: &[PastItem],
) -> Result<Option<InOrder>, AllocError>
    requires { WasRead plan.now }
    ensures { IfOk result (λ ran. ran ≡ serial_run plan.now plan.now.tables (map history_step_of (map item_as items.now))) }
{
    let history_steps = history_steps_of(alloc, items)?;
    let opening = plain_tables(alloc, plan.tables())?;
    run_in_order(alloc, plan, opening, history_steps.as_slice())
}

/// The same for a plan that was read, with its journal.
fn is_so(alloc: Global, plan: &Plan, journal: &Journal, report: &str) -> Result<bool, AllocError>
    requires { WasRead plan.now }
{
    let walked = walk(alloc, plan, journal.as_slice())?;
    match run_reference(alloc, plan, walked.items.as_slice())? {
        Some(ran) => is_given(alloc, plan, &walked, &ran, report),
        None => Ok(false),
    }
}

/// Whether one at a time gives what a run of the plan of these bytes gave, which had this journal and the report of these bytes.
pub fn agrees_with_reference(
    alloc: Global,
    bytes: &[u8],
    journal: &Journal,
    report: &[u8],
) -> Result<bool, AllocError> {
    let Ok(report) = str::from_utf8(report) else {
        return Ok(false);
    };
    match read_accepted_plan(alloc, bytes) {
        Ok(plan) => is_so(alloc, &plan, journal, report),
        Err(PlanFault::Refused(_)) => Ok(false),
        Err(PlanFault::Memory) => Err(AllocError),
    }
}

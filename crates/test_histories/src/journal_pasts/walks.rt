//! The walk through a journal.

ghost use Rattle.std.specs.Prelude.{◌≡◌, [], ◌∷◌, ◌++◌, List, map, false, option_to_list, IfOk, OnOk};
ghost use Rattle.base_script.specs.declared.actor.Actor.TheVariants.{Client};
ghost use Rattle.server_model.specs.declared.entry.Entry.{Entry};
ghost use Rattle.server_model.specs.Entries.{is_client};
ghost use Rattle.plan_data.specs.PlanData.{PlanData};
ghost use Rattle.tool_program.specs.JournalWords.Clients.{new_client};
ghost use Rattle.tool_program.specs.JournalWords.Histories.{entry_adds};
ghost use Rattle.run_actors.specs.Renamings.{AreRenaming};
ghost use Rattle.test_histories.specs.JournalPasts.Walks.{AreReached, WasWalked, item_as};

use crate::journal_pasts::pasts::{PastItem, PastItems};
use crate::journal_pasts::reached::Reached;
use base_script::{Actor, Script};
use base_values::Sequence;
use plan_data::Plan;
use run_actors::{Renaming, is_alter_turn};
use server_model::Entry;
use std::alloc::{AllocError, Global};

/// What a journal says.
#[derive(Drop)]
pub struct Walked<'a> {
    /// The transactions that ended and the ALTER, in the order of the turns that ended them.
    pub items: PastItems,
    /// How far each client is, in the clients' order.
    pub clients: Vec<Reached<'a>>,
}

/// The clients at their scripts' begins.
fn clients_of<'a>(alloc: Global, scripts: &'a [Script]) -> Result<Vec<Reached<'a>>, AllocError>
    ensures { IfOk result (λ clients. clients.items ≡ map new_client scripts.now) }
{
    let mut clients = Vec::with_capacity(alloc, scripts.len())?;
    for script in scripts {
        clients.push(Reached::new(alloc, script))?;
    }
    Ok(clients)
}

/// What a turn of the tool's adds.
#[tactic(auto, using(run_actors::proofs::AlterTurns::adds_alter, run_actors::proofs::AlterTurns::adds_nothing))]
fn tool_turn(plan: &Plan, renaming: Renaming, entry: &Entry) -> Option<PastItem>
    requires { is_client entry.now.actor ≡ false }
    ensures { (before : List Entry) → AreRenaming plan.now before renaming → map item_as (option_to_list result) ≡ entry_adds plan.now before entry.now }
{
    if is_alter_turn(plan.table(), entry, renaming.at(entry.actor)) {
        Some(PastItem::Alter)
    } else {
        None
    }
}

/// What a turn of the client of this number adds.
fn client_turn(
    alloc: Global,
    clients: &mut Vec<Reached<'_>>,
    client: u32,
    entry: &Entry,
) -> Result<Option<PastItem>, AllocError>
    requires { entry.now.actor ≡ Client client }
    ensures item { IfOk result (λ item. (plan : PlanData) (before : List Entry) → AreReached plan before clients.old.items → map item_as (option_to_list item) ≡ entry_adds plan before entry.now) }
    ensures clients { OnOk result ((plan : PlanData) (before : List Entry) → AreReached plan before clients.old.items → AreReached plan (before ++ entry.now ∷ []) clients.new.items) }
{
    let place = client as usize;
    if place == 0 || place > clients.len() {
        return Ok(None);
    }
    match clients[place - 1].turn(alloc, client, entry)? {
        Some(past) => Ok(Some(PastItem::Txn(past))),
        None => Ok(None),
    }
}

/// What a turn adds.
fn turn(
    alloc: Global,
    plan: &Plan,
    clients: &mut Vec<Reached<'_>>,
    renaming: Renaming,
    entry: &Entry,
) -> Result<Option<PastItem>, AllocError>
    ensures item { IfOk result (λ item. (before : List Entry) → AreReached plan.now before clients.old.items → AreRenaming plan.now before renaming → map item_as (option_to_list item) ≡ entry_adds plan.now before entry.now) }
    ensures clients { OnOk result ((before : List Entry) → AreReached plan.now before clients.old.items → AreReached plan.now (before ++ entry.now ∷ []) clients.new.items) }
{
    match entry.actor {
        Actor::Client(client) => client_turn(alloc, clients, client, entry),
        _ => Ok(tool_turn(plan, renaming, entry)),
    }
}

/// Adds what a turn adds.
fn push_item(items: &mut PastItems, item: Option<PastItem>) -> Result<(), AllocError>
    ensures { OnOk result (items.new ≡ items.old ++ option_to_list item) }
{
    match item {
        Some(item) => items.push(item),
        None => Ok(()),
    }
}

/// What the turns of a journal ended, and how far they left each client.
pub fn walk<'a>(alloc: Global, plan: &'a Plan, journal: &[Entry]) -> Result<Walked<'a>, AllocError>
    ensures { IfOk result (WasWalked plan.now journal.now) }
{
    let mut items = Sequence::new(alloc);
    let mut clients = clients_of(alloc, plan.clients().as_slice())?;
    let mut renaming = Renaming::nobody();
    for entry in journal {
        let item = turn(alloc, plan, &mut clients, renaming, entry)?;
        push_item(&mut items, item)?;
        renaming.pass(plan.table(), entry);
    }
    Ok(Walked { items, clients })
}

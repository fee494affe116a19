//! The history.

ghost use Rattle.std.specs.Prelude.{◌≡◌, ◌++◌, ℕ, List, map, false, option_map, IfOk, OnOk};
ghost use Rattle.std.specs.List.{flat_map};
ghost use Rattle.base_script.specs.declared.actor.Actor.TheVariants.{Client};
ghost use Rattle.server_model.specs.declared.entry.Entry.{Entry};
ghost use Rattle.server_model.specs.Entries.{is_client};
ghost use Rattle.tool_program.specs.JournalWords.Histories.{entry_adds, history};
ghost use Rattle.run_actors.specs.Renamings.{AreRenaming};
ghost use Rattle.top_report.specs.ClientLines.Pasts.{history_line, item_text, past_text};
ghost use Rattle.top_report.specs.ClientLines.Walks.{client_added, ended_text, new_walk, walk_at, walks_after};

use crate::client_lines::numbers::push_count;
use crate::client_lines::walk::Walk;
use base_script::{Actor, Script};
use base_values::Text;
use plan_data::Plan;
use run_actors::client_turns::LineOutcome;
use run_actors::{Renaming, is_alter_turn};
use server_model::Entry;
use std::alloc::{AllocError, Global};

/// Adds a transaction.
#[tactic(auto, unfolding(crate::specs::ClientLines::Pasts::past_text))]
fn push_past(into: &mut Text, client: u64, number: u64) -> Result<(), AllocError>
    ensures { OnOk result (into.new ≡ into.old ++ past_text client number) }
{
    into.push_str(" c")?;
    push_count(into, client)?;
    into.push_str(".")?;
    push_count(into, number)
}

/// Adds what a client's turn ends.
fn push_ended(
    into: &mut Text,
    client: u64,
    walk: &Walk<'_>,
    outcome: LineOutcome,
) -> Result<(), AllocError>
    ensures { OnOk result (into.new ≡ into.old ++ ended_text client walk.now outcome) }
{
    match outcome {
        LineOutcome::Marked(mark) if walk.ends(mark) => push_past(into, client, walk.number()),
        LineOutcome::Broken if walk.is_open() => push_past(into, client, walk.begun()),
        _ => Ok(()),
    }
}

/// The walk of the client of this number.
fn walk_at<'w, 'a>(client: u32, walks: &'w [Walk<'a>]) -> Option<&'w Walk<'a>>
    ensures { option_map (λ walk. walk.now) result ≡ walk_at client walks.now }
{
    if client == 0 {
        None
    } else {
        walks.get(client as usize - 1)
    }
}

/// Adds what a turn of the client of this number ends.
fn push_client_added(
    into: &mut Text,
    client: u32,
    walks: &[Walk<'_>],
    entry: &Entry,
) -> Result<(), AllocError>
    ensures { OnOk result (into.new ≡ into.old ++ client_added client (walk_at client walks.now) entry.now) }
{
    match walk_at(client, walks) {
        None => Ok(()),
        Some(walk) => push_ended(into, u64::from(client), walk, walk.outcome(entry)),
    }
}

/// Adds the ALTER, where it was done in a turn of the tool's.
#[tactic(auto, using(crate::proofs::ClientLines::Ending::alter_added, crate::proofs::ClientLines::Ending::nothing_added))]
fn push_tool_added(
    into: &mut Text,
    plan: &Plan,
    renaming: Renaming,
    entry: &Entry,
) -> Result<(), AllocError>
    requires { is_client entry.now.actor ≡ false }
    ensures { OnOk result ((before : List Entry) → AreRenaming plan.now before renaming → into.new ≡ into.old ++ flat_map item_text (entry_adds plan.now before entry.now)) }
{
    if is_alter_turn(plan.table(), entry, renaming.at(entry.actor)) {
        into.push_str(" ALTER")
    } else {
        Ok(())
    }
}

/// Adds what a turn ends.
fn push_added(
    into: &mut Text,
    plan: &Plan,
    walks: &[Walk<'_>],
    renaming: Renaming,
    entry: &Entry,
) -> Result<(), AllocError>
    ensures client { OnOk result ((number : ℕ) → entry.now.actor ≡ Client number → into.new ≡ into.old ++ client_added number (walk_at number walks.now) entry.now) }
    ensures tool { OnOk result ((before : List Entry) → is_client entry.now.actor ≡ false → AreRenaming plan.now before renaming → into.new ≡ into.old ++ flat_map item_text (entry_adds plan.now before entry.now)) }
{
    match entry.actor {
        Actor::Client(client) => push_client_added(into, client, walks, entry),
        _ => push_tool_added(into, plan, renaming, entry),
    }
}

/// The walks after a turn.
fn pass(walks: &mut Vec<Walk<'_>>, entry: &Entry)
    ensures { walks.new.items ≡ walks_after 1 entry.now walks.old.items }
{
    if let Actor::Client(client) = entry.actor {
        pass_client(walks, client, entry);
    }
}

/// The same, after a turn of the client of this number.
fn pass_client(walks: &mut Vec<Walk<'_>>, client: u32, entry: &Entry)
    requires { entry.now.actor ≡ Client client }
    ensures { walks.new.items ≡ walks_after 1 entry.now walks.old.items }
{
    let place = client as usize;
    if place != 0 && place <= walks.len() {
        let walk = &mut walks[place - 1];
        let outcome = walk.outcome(entry);
        walk.take(outcome);
    }
}

/// The clients at their scripts' begins.
fn walks_of<'a>(alloc: Global, scripts: &'a [Script]) -> Result<Vec<Walk<'a>>, AllocError>
    ensures { IfOk result (λ walks. walks.items ≡ map new_walk scripts.now) }
{
    let mut walks = Vec::with_capacity(alloc, scripts.len())?;
    for script in scripts {
        walks.push(Walk::new(script))?;
    }
    Ok(walks)
}

fn push_history(
    alloc: Global,
    into: &mut Text,
    plan: &Plan,
    journal: &[Entry],
) -> Result<(), AllocError>
    ensures { OnOk result (into.new ≡ into.old ++ flat_map item_text (history plan.now journal.now)) }
{
    let mut walks = walks_of(alloc, plan.clients().as_slice())?;
    let mut renaming = Renaming::nobody();
    for entry in journal {
        push_added(into, plan, walks.as_slice(), renaming, entry)?;
        pass(&mut walks, entry);
        renaming.pass(plan.table(), entry);
    }
    Ok(())
}

/// Adds the transactions that ended and the ALTER, in the order of the turns that ended them.
#[tactic(auto, unfolding(crate::specs::ClientLines::Pasts::history_line))]
pub fn push_history_line(
    alloc: Global,
    into: &mut Text,
    plan: &Plan,
    journal: &[Entry],
) -> Result<(), AllocError>
    ensures { OnOk result (into.new ≡ into.old ++ history_line plan.now journal.now) }
{
    into.push_str("history")?;
    push_history(alloc, into, plan, journal)?;
    into.push_str("\n")
}

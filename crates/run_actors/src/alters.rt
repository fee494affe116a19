//! The turn in which the ALTER is done. Nothing here takes memory.

ghost use Rattle.std.specs.Prelude.{◌≡◌, List, option_map, Option, Some};
ghost use Rattle.std.specs.List.{list_any};
ghost use Rattle.server_model.specs.declared.entry.Entry.{Entry};
ghost use Rattle.server_model.specs.declared.request.Request.{Request};
ghost use Rattle.plan_data.specs.PlanData.{PlanData};
ghost use Rattle.tool_program.specs.JournalWords.Histories.{takes_away, renames_away, request_waiting, asked_about, answer_in, entry_adds, is_alter};

use crate::actors::is_client;
use base_script::Side;
use base_values::Name;
use server_model::{Answer, Asked, AskedView, Entry, Request, TurnAsked};
use table_store::Pair;

fn takes_away(name: &Name, pairs: &[Pair]) -> bool
    ensures { result ≡ takes_away name.now pairs.now }
{
    pairs.iter().any(|pair| pair.old == *name)
}

/// Whether the request takes the name away from its table.
pub(crate) fn renames_away(name: &Name, request: &Request) -> bool
    ensures { result ≡ renames_away name.now (Some request.now) }
{
    match request {
        Request::Rename(pairs) => takes_away(name, pairs.as_slice()),
        _ => false,
    }
}

/// Whether the request that the turn is about takes the name away; where one waited before it, that did or didn't. A RENAME is kept
/// whole.
#[tactic(auto, using(crate::proofs::AlterTurns::lost_renames))]
fn about_renames(name: &Name, asked: &TurnAsked, renames: bool) -> bool
    ensures { (waiting : Option Request) → renames ≡ renames_away name.now waiting → result ≡ renames_away name.now (asked_about asked.now waiting) }
{
    match asked.view() {
        AskedView::All(Asked::Call(request)) => renames_away(name, request),
        AskedView::All(Asked::Command(_)) | AskedView::Lost(..) => false,
        AskedView::All(Asked::Poll | Asked::Cut) => renames,
    }
}

/// What the server answered in the turn.
fn answer_in(entry: &Entry) -> Option<&Answer>
    ensures { option_map (λ answer. answer.now) result ≡ answer_in entry.now.asked entry.now.side entry.now.answer entry.now.missed }
{
    match (entry.asked.view(), entry.side) {
        (AskedView::All(Asked::Cut), _) | (_, Some(Side::Before)) => None,
        (_, None) => Some(&entry.answer),
        (_, Some(Side::After)) => entry.missed.as_ref(),
    }
}

/// Whether the ALTER is done in the turn, where its actor waited with a RENAME of the migrated table or didn't.
#[tactic(auto, using(crate::proofs::AlterTurns::of_client))]
pub fn is_alter_turn(table: &Name, entry: &Entry, renames: bool) -> bool
    ensures { (plan : PlanData) (before : List Entry) → table.now ≡ plan.table → renames ≡ renames_away plan.table (request_waiting before entry.now.actor) → result ≡ list_any is_alter (entry_adds plan before entry.now) }
{
    if is_client(entry.actor) {
        return false;
    }
    match answer_in(entry) {
        Some(Answer::Ok(_)) => about_renames(table, &entry.asked, renames),
        _ => false,
    }
}

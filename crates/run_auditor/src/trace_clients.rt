//! The clients of a trace.

ghost use Rattle.std.specs.Prelude.{◌≡◌, ℕ, ◌∷◌, ◌++◌, [], true, false, is_some, length, option_map, List, IfOk, OnOk};
ghost use Rattle.base_script.specs.declared.actor.Actor.TheVariants.{Client};
ghost use Rattle.run_audit.specs.declared.line.TraceLine.{TraceLine as Line};
ghost use Rattle.run_audit.specs.Audits.{first_draws, judged, judged_in, may_draw, opening_tables, tables_reached};
ghost use Rattle.table_store.specs.Databases.{database};
ghost use Rattle.run_audit.specs.Rules.{all_are_over, is_astray, next_turn, was_lost};
ghost use Rattle.tool_program.specs.JournalWords.Clients.{Reached, client_over, script_of};
ghost use Rattle.run_auditor.specs.AllClients.{AreFollowed, is_of_plan};
ghost use Rattle.run_judge.specs.TraceClients.{AreJudged, IsFollowed};

use crate::drawn_numbers::first_draws;
use base_script::{Actor, Script};
use plan_data::Plan;
use run_audit::TraceLine;
use run_judge::trace_client::{RepliedTxn, TraceClient};
use std::alloc::{AllocError, Global};
use table_store::paged_tables::Tables;

/// What is kept of the clients of a plan, in the clients' order, before the first turn.
pub fn new_clients(alloc: Global, plan: &Plan) -> Result<Vec<TraceClient>, AllocError>
    ensures { IfOk result (λ clients. AreFollowed plan.now [] clients.items) }
{
    let mut clients = Vec::new(alloc);
    for _place in 0..plan.clients().len() {
        clients.push(TraceClient::new(alloc))?;
    }
    Ok(clients)
}

/// The script of a client; clients count from 1.
fn script_of(plan: &Plan, number: u32) -> Option<&Script>
    ensures { option_map (λ script. script.now) result ≡ script_of number plan.now }
{
    if number == 0 {
        None
    } else {
        plan.clients().as_slice().get(number as usize - 1)
    }
}

/// Whether the actor is a client that was lost.
#[tactic(auto, using(crate::proofs::EachClient::known_one, crate::proofs::EachClient::known_inside, crate::proofs::PlacedClients::none_lost))]
pub fn was_lost(plan: &Plan, clients: &Vec<TraceClient>, actor: Actor) -> bool
    requires known { is_of_plan plan.now actor ≡ true }
    requires count { length clients.now.items ≡ length plan.now.clients }
    ensures { (before : List Line) → AreFollowed plan.now before clients.now.items → result ≡ was_lost plan.now before actor }
{
    match actor {
        Actor::Client(number) => clients[number as usize - 1].state.is_lost,
        _ => false,
    }
}

/// Whether the turn is one of a client that wasn't lost, and asks something else than its script has next.
#[tactic(auto, using(crate::proofs::EachClient::known_one, crate::proofs::EachClient::known_inside, crate::proofs::PlacedClients::none_astray))]
pub fn is_astray(plan: &Plan, clients: &Vec<TraceClient>, line: &TraceLine) -> bool
    requires known { is_of_plan plan.now line.now.actor ≡ true }
    requires count { length clients.now.items ≡ length plan.now.clients }
    ensures { (before : List Line) → AreFollowed plan.now before clients.now.items → result ≡ is_astray plan.now before line.now.asked line.now.actor }
{
    match line.actor {
        Actor::Client(number) => {
            let Some(script) = script_of(plan, number) else {
                unreachable!();
            };
            clients[number as usize - 1].is_astray(script, line.asked)
        }
        _ => false,
    }
}

/// Whether the client's next line draws a number in these tables.
fn draws_next(
    alloc: Global,
    tables: &Tables,
    client: &TraceClient,
    script: &Script,
) -> Result<bool, AllocError>
    ensures { (reached : Reached) (turns : List ℕ) → IsFollowed script.now client.now reached turns → IfOk result (λ draws. draws ≡ first_draws (database tables.now) reached.left) }
{
    first_draws(alloc, tables, client.state.left(script))
}

/// Whether the actor's next line draws a number. The tables are those that the turns before reached.
#[tactic(auto, using(crate::proofs::EachClient::known_one, crate::proofs::EachClient::known_inside, crate::proofs::PlacedClients::none_draws))]
pub fn may_draw(
    alloc: Global,
    plan: &Plan,
    clients: &Vec<TraceClient>,
    tables: &Tables,
    actor: Actor,
) -> Result<bool, AllocError>
    requires known { is_of_plan plan.now actor ≡ true }
    requires count { length clients.now.items ≡ length plan.now.clients }
    ensures { (before : List Line) → AreFollowed plan.now before clients.now.items → database tables.now ≡ tables_reached plan.now (opening_tables plan.now) (judged plan.now before) → IfOk result (λ draws. draws ≡ may_draw plan.now before actor) }
{
    match actor {
        Actor::Client(number) => {
            let Some(script) = script_of(plan, number) else {
                unreachable!();
            };
            draws_next(alloc, tables, &clients[number as usize - 1], script)
        }
        _ => Ok(false),
    }
}

/// A turn of the client of this number, which isn't astray. Answers the transaction that ended with it, where one did.
#[tactic(auto, using(crate::proofs::EachClient::known_one, crate::proofs::EachClient::known_inside))]
pub fn follow(
    alloc: Global,
    plan: &Plan,
    clients: &mut Vec<TraceClient>,
    number: u32,
    turn: u64,
    line: &TraceLine,
) -> Result<Option<RepliedTxn>, AllocError>
    requires known { is_some (script_of number plan.now) ≡ true }
    requires count { length clients.old.items ≡ length plan.now.clients }
    ensures followed { (before : List Line) → AreFollowed plan.now before clients.old.items → line.now.actor ≡ Client number → is_astray plan.now before line.now.asked (Client number) ≡ false → turn ≡ next_turn before → OnOk result (AreFollowed plan.now (before ++ line.now ∷ []) clients.new.items) }
    ensures judged { (before : List Line) → AreFollowed plan.now before clients.old.items → line.now.actor ≡ Client number → is_astray plan.now before line.now.asked (Client number) ≡ false → turn ≡ next_turn before → IfOk result (AreJudged (judged_in plan.now before line.now (Client number))) }
{
    let Some(script) = script_of(plan, number) else {
        unreachable!();
    };
    let place = number as usize - 1;
    if clients[place].state.is_lost {
        return Ok(None);
    }
    clients[place].follow(alloc, script, turn, line)
}

/// Whether the client is over, by its script's end or its loss.
fn is_over(client: &TraceClient, script: &Script) -> bool
    ensures { (reached : Reached) (turns : List ℕ) → IsFollowed script.now client.now reached turns → result ≡ client_over reached }
{
    client.state.is_over(script)
}

/// Whether each client is over.
#[tactic(auto, unfolding(run_audit::specs::Rules::all_are_over))]
pub fn all_are_over(plan: &Plan, clients: &Vec<TraceClient>) -> bool
    requires { length clients.now.items ≡ length plan.now.clients }
    ensures { (before : List Line) → AreFollowed plan.now before clients.now.items → result ≡ all_are_over plan.now before 1 plan.now.clients }
{
    let scripts = plan.clients().as_slice();
    for place in 0..scripts.len() {
        if !is_over(&clients[place], &scripts[place]) {
            return false;
        }
    }
    true
}

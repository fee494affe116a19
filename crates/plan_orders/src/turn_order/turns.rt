//! The order of turns.

ghost use Rattle.std.specs.Prelude.{◌≡◌, nat_lt, map, IfOk};
ghost use Rattle.std.specs.List.{sum_by};
ghost use Rattle.plan_orders.specs.TurnOrder.Refusals.{or_refused};
ghost use Rattle.base_values.specs.Faults.{Answers};
ghost use Rattle.plan_orders.specs.TurnOrder.Turns.{run_with, run_of, times_in, turn_count, run_among, runs_from, turns_of};

use crate::turn_order::fault::{TurnFault, TurnRefusal};
use crate::{actor_of, is_among, number_of, parts_at, spaced_words};
use base_script::Actor;
use base_values::Sequence;
use plan_data::{ActorRun, ActorRuns};
use std::alloc::{AllocError, Global};

fn run_with(actor: Option<Actor>, times: Option<u32>) -> Option<ActorRun>
    ensures { result ≡ run_with actor times }
{
    let actor = actor?;
    let times = times?;
    Some(ActorRun { actor, times })
}

/// The turns that a word asks for, whether or not the plan has this many clients.
#[tactic(auto, unfolding(crate::specs::TurnOrder::Turns::run_of))]
fn run_of(word: &[u8]) -> Option<ActorRun>
    ensures { result ≡ run_of word.now }
{
    match parts_at(b'*', word) {
        None => run_with(actor_of(word), Some(1)),
        Some((actor, times)) => run_with(actor_of(actor), number_of(times)),
    }
}

/// How many turns a word asks for; one that asks for none counts as one.
fn times_in(word: &[u8]) -> u32
    ensures { result ≡ times_in (run_of word.now) }
{
    match run_of(word) {
        None => 1,
        Some(run) => run.times,
    }
}

fn ask_for_more(limit: u64, words: &[&[u8]]) -> bool
    ensures { result ≡ nat_lt limit (sum_by (λ word. times_in (run_of word.now)) words.now) }
{
    let mut left = limit;
    for word in words {
        let times = u64::from(times_in(word));
        if left < times {
            return true;
        }
        left -= times;
    }
    false
}

/// Whether a text asks for more turns than `limit`.
pub fn has_more_turns(alloc: Global, limit: u64, text: &str) -> Result<bool, AllocError>
    ensures { IfOk result (λ more. more ≡ nat_lt limit (turn_count text.now)) }
{
    let words = spaced_words(alloc, text)?;
    Ok(ask_for_more(limit, words.as_slice()))
}

/// The turns of an actor of a plan with `clients` clients that a word asks for.
fn run_among(clients: u32, word: &[u8]) -> Option<ActorRun>
    ensures { result ≡ run_among clients word.now }
{
    let run = run_of(word)?;
    if is_among(clients, run.actor) {
        Some(run)
    } else {
        None
    }
}

/// The same, where a refusal has the word's number.
fn numbered_run(clients: u32, number: u32, word: &[u8]) -> Result<ActorRun, TurnFault>
    ensures { Answers (λ run. run) result (or_refused number (run_among clients word.now)) }
{
    match run_among(clients, word) {
        Some(run) => Ok(run),
        None => Err(TurnFault::Refused(TurnRefusal { word: number })),
    }
}

fn runs_from(alloc: Global, clients: u32, words: &[&[u8]]) -> Result<ActorRuns, TurnFault>
    ensures { Answers (λ runs. runs) result (runs_from clients 1 (map (λ word. word.now) words.now)) }
{
    let mut runs = Sequence::new(alloc);
    let mut number: u32 = 1;
    for word in words {
        let run = numbered_run(clients, number, word)?;
        runs.push(run)?;
        number = number.saturating_add(1);
    }
    Ok(runs)
}

/// Reads an order of turns of the actors of a plan with `clients` clients.
pub fn read_turns(alloc: Global, text: &str, clients: u32) -> Result<ActorRuns, TurnFault>
    ensures { Answers (λ runs. runs) result (turns_of clients text.now) }
{
    let words = spaced_words(alloc, text)?;
    runs_from(alloc, clients, words.as_slice())
}

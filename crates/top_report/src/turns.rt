//! The turns.

ghost use Rattle.std.specs.Prelude.{◌≡◌, ◌<◌, ◌^◌, [], ◌++◌, IfOk, IfSome, OnOk};
ghost use Rattle.server_model.specs.Entries.{same_actor};
ghost use Rattle.top_report.specs.Turns.{actor_word, order_text, run_text, runs_of, times_text, turns_taken, turns_text};
ghost use Rattle.top_report.specs.Runs.{open_after, printed_at, printed_before, run_with, runs_open, spaced_run};

use crate::client_lines::{push_count, push_number_line};
use base_script::Actor;
use base_values::Text;
use server_model::Entry;
use std::alloc::AllocError;

/// Turns of one actor, one after the other, to which one more may come.
#[derive(Clone, Copy)]
pub(crate) struct OpenRun {
    actor: Actor,
    times: u64,
}

/// Adds the word of an actor.
#[tactic(auto, unfolding(crate::specs::Turns::actor_word))]
pub fn push_actor(into: &mut Text, actor: Actor) -> Result<(), AllocError>
    ensures { OnOk result (into.new ≡ into.old ++ actor_word actor) }
{
    match actor {
        Actor::Op => into.push_str("op"),
        Actor::Insp => into.push_str("insp"),
        Actor::Copy => into.push_str("copy"),
        Actor::Apply => into.push_str("apply"),
        Actor::Lock => into.push_str("lock"),
        Actor::Ren => into.push_str("ren"),
        Actor::Client(number) => {
            into.push_str("c")?;
            push_count(into, u64::from(number))
        }
    }
}

fn push_times(into: &mut Text, times: u64) -> Result<(), AllocError>
    ensures { OnOk result (into.new ≡ into.old ++ times_text times) }
{
    if times == 1 {
        return Ok(());
    }
    into.push_str("*")?;
    push_count(into, times)
}

#[tactic(auto, unfolding(crate::specs::Turns::run_text))]
fn push_run(into: &mut Text, run: OpenRun) -> Result<(), AllocError>
    ensures { OnOk result (into.new ≡ into.old ++ spaced_run run) }
{
    into.push_str(" ")?;
    push_actor(into, run.actor)?;
    push_times(into, run.times)
}

fn is_same(actor: Actor, other: Actor) -> bool
    ensures { result ≡ same_actor actor other }
{
    match (actor, other) {
        (Actor::Client(number), Actor::Client(other)) => number == other,
        (actor, other) => actor == other,
    }
}

/// Adds the run before a turn, where the turn isn't of it.
fn push_before(into: &mut Text, before: Option<OpenRun>, actor: Actor) -> Result<(), AllocError>
    ensures { OnOk result (into.new ≡ into.old ++ printed_before before actor) }
{
    match before {
        Some(run) if !is_same(run.actor, actor) => push_run(into, run),
        _ => Ok(()),
    }
}

/// The run that a turn is of, where this one comes before it.
fn run_with(before: Option<OpenRun>, actor: Actor) -> OpenRun
    requires { IfSome before (λ run. run.times < 2 ^ 63) }
    ensures { result ≡ run_with before actor }
{
    match before {
        Some(run) if is_same(run.actor, actor) => OpenRun {
            actor: run.actor,
            times: run.times + 1,
        },
        _ => OpenRun { actor, times: 1 },
    }
}

/// Adds the run before a turn, where the turn isn't of it, and gives the run that is open after the turn. A loss between calls
/// is no turn of a run.
fn push_turn(
    into: &mut Text,
    before: Option<OpenRun>,
    entry: &Entry,
) -> Result<Option<OpenRun>, AllocError>
    requires { IfSome before (λ run. run.times < 2 ^ 63) }
    ensures text { OnOk result (into.new ≡ into.old ++ printed_at before entry.now) }
    ensures run { IfOk result (λ run. run ≡ open_after before entry.now) }
{
    if entry.asked.is_cut() {
        return Ok(before);
    }
    push_before(into, before, entry.actor)?;
    Ok(Some(run_with(before, entry.actor)))
}

/// Adds the last run.
#[tactic(auto, using(crate::proofs::Joining::no_run))]
fn push_last(into: &mut Text, last: Option<OpenRun>) -> Result<(), AllocError>
    ensures { OnOk result (into.new ≡ into.old ++ order_text (runs_open last [])) }
{
    match last {
        None => Ok(()),
        Some(run) => push_run(into, run),
    }
}

/// Adds whose turns a journal has, losses between calls aside.
fn push_order(into: &mut Text, journal: &[Entry]) -> Result<(), AllocError>
    ensures { OnOk result (into.new ≡ into.old ++ order_text (runs_of (turns_taken journal.now))) }
{
    let mut last: Option<OpenRun> = None;
    for entry in journal {
        last = push_turn(into, last, entry)?;
    }
    push_last(into, last)
}

/// Adds how many turns a journal has, and whose they are.
#[tactic(auto, unfolding(crate::specs::Turns::turns_text))]
pub(crate) fn push_turns(into: &mut Text, journal: &[Entry]) -> Result<(), AllocError>
    ensures { OnOk result (into.new ≡ into.old ++ turns_text journal.now) }
{
    push_number_line(into, "turns ", journal.len() as u64)?;
    into.push_str("order")?;
    push_order(into, journal)?;
    into.push_str("\n")
}

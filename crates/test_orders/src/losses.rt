//! Single losses of sessions.

use crate::as_reference::turns_of_reference;
use base_script::Actor;
use run_turns::WorkerTurn;
use std::alloc::{AllocError, Global};
use std::io;
use test_program::Program;

/// The actors of the plan.
const ACTORS: [&str; 6] = ["insp", "copy", "apply", "lock", "ren", "c1"];

/// How many losses a plan was run with, and how many of the runs are as one at a time.
#[derive(Clone, Copy)]
struct Count {
    losses: u64,
    as_reference: u64,
}

/// The word of an actor of the plan.
fn word_of(actor: Actor) -> &'static str {
    match actor {
        Actor::Op => "op",
        Actor::Insp => "insp",
        Actor::Copy => "copy",
        Actor::Apply => "apply",
        Actor::Lock => "lock",
        Actor::Ren => "ren",
        Actor::Client(_) => "c1",
    }
}

/// How many of the turns are this actor's.
fn turns_of(actor: Actor, turns: &[WorkerTurn]) -> usize {
    turns.iter().filter(|turn| turn.actor() == actor).count()
}

/// Whether the run of a plan with a loss is as one at a time.
fn is_lost_as_reference(
    alloc: Global,
    program: &Program,
    plan: &str,
    loss: &str,
) -> Result<bool, AllocError> {
    let faults = format!(in alloc; "faults = [\"{loss}\"]")?;
    Ok(turns_of_reference(alloc, program, faults.as_str(), plan)?.is_some())
}

/// Runs a plan with a loss, and counts it.
fn run_loss<R: Print + AllocGlobal>(
    rt: &R,
    program: &Program,
    plan: &str,
    loss: &str,
    count: &mut Count,
) -> io::Result<()> {
    count.losses = count.losses.saturating_add(1);
    if is_lost_as_reference(rt.alloc(), program, plan, loss)? {
        count.as_reference = count.as_reference.saturating_add(1);
        Ok(())
    } else {
        println!(rt; "loss {loss} is not")
    }
}

/// Runs a plan with an actor's session lost at its turn of this number, on this side of the call.
fn run_turn_loss<R: Print + AllocGlobal>(
    rt: &R,
    program: &Program,
    plan: &str,
    actor: Actor,
    number: usize,
    side: &str,
    count: &mut Count,
) -> io::Result<()> {
    let loss = format!(in rt.alloc(); "{} {number} {side}", word_of(actor))?;
    run_loss(rt, program, plan, loss.as_str(), count)
}

/// How many of the turns up to this place are this actor's.
fn number_at(actor: Actor, turns: &[WorkerTurn], place: usize) -> usize {
    match turns.get(..place) {
        Some(so_far) => turns_of(actor, so_far),
        None => 0,
    }
}

/// Runs a plan with the session of each of these turns lost at it, before its call is done and after.
fn run_turn_losses<R: Print + AllocGlobal>(
    rt: &R,
    program: &Program,
    plan: &str,
    turns: &[WorkerTurn],
    count: &mut Count,
) -> io::Result<()> {
    let mut place = 0usize;
    for turn in turns {
        place = place.saturating_add(1);
        let number = number_at(turn.actor(), turns, place);
        run_turn_loss(rt, program, plan, turn.actor(), number, "before", count)?;
        run_turn_loss(rt, program, plan, turn.actor(), number, "after", count)?;
    }
    Ok(())
}

/// Runs a plan with each actor's session lost before the turn of this number.
fn run_losses_before<R: Print + AllocGlobal>(
    rt: &R,
    program: &Program,
    plan: &str,
    number: usize,
    count: &mut Count,
) -> io::Result<()> {
    for word in &ACTORS {
        let loss = format!(in rt.alloc(); "turn {number} {word}")?;
        run_loss(rt, program, plan, loss.as_str(), count)?;
    }
    Ok(())
}

/// Runs a plan with each single loss that a run of these turns could meet.
fn run_losses<R: Print + AllocGlobal>(
    rt: &R,
    program: &Program,
    plan: &str,
    turns: &[WorkerTurn],
) -> io::Result<Count> {
    let mut count = Count {
        losses: 0,
        as_reference: 0,
    };
    run_turn_losses(rt, program, plan, turns, &mut count)?;
    for place in 0..turns.len() {
        run_losses_before(rt, program, plan, place.saturating_add(1), &mut count)?;
    }
    Ok(count)
}

/// Runs a plan, and then with each single loss that its run could meet, and says of how many the run is as one at a time.
pub fn run_with_losses<R: Print + AllocGlobal>(
    rt: &R,
    program: &Program,
    name: &str,
    plan: &str,
) -> io::Result<()> {
    let Some(turns) = turns_of_reference(rt.alloc(), program, "# No session is lost.", plan)? else {
        return println!(rt; "{name} itself is not");
    };
    let count = run_losses(rt, program, plan, turns.as_slice())?;
    println!(rt;
        "{name}: {} of {} losses are as one at a time",
        count.as_reference, count.losses
    )
}

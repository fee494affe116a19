//! Orders of turns, drawn by a rule.

ghost use Rattle.std.specs.Prelude.{◌<◌};

use crate::as_reference::turns_of_reference;
use run_turns::{Turns, WorkerTurn};
use std::alloc::{AllocError, Global};
use std::io;
use test_program::Program;

/// How many orders each plan is run in.
const ORDERS: u64 = 200;

/// The actors that are drawn.
const ACTORS: [&str; 8] = ["insp", "copy", "apply", "lock", "ren", "c1", "c2", "c3"];

/// How many actors are drawn for an order.
const WORDS: u64 = 60;

/// A fixed sequence of numbers: Knuth's linear congruential generator modulo 2^64, of which the high half is drawn.
#[derive(Clone, Copy)]
struct Draws {
    state: u64,
}

impl Draws {
    fn new(number: u64) -> Draws {
        Draws { state: number }
    }

    /// The next number, below this bound.
    fn next(&mut self, bound: u64) -> u64
        requires { 0 < bound }
        ensures { result < bound }
    {
        self.state = self
            .state
            .wrapping_mul(6_364_136_223_846_793_005)
            .wrapping_add(1_442_695_040_888_963_407);
        (self.state >> 33) % bound
    }
}

/// Adds an actor that is drawn, with one to three turns.
fn push_turns(alloc: Global, draws: &mut Draws, line: &mut String) -> Result<(), AllocError> {
    let actor = ACTORS[draws.next(8) as usize];
    let times = draws.next(3) + 1;
    let turns = format!(in alloc; " {actor}*{times}")?;
    line.push_str(turns.as_str())
}

/// The line of a plan that asks for the order of this number: each actor that is drawn has one to three turns.
fn order_line(alloc: Global, number: u64) -> Result<String, AllocError> {
    let mut draws = Draws::new(number);
    let mut line = format!(in alloc; "turns = \"insp")?;
    for _ in 0..WORDS {
        push_turns(alloc, &mut draws, &mut line)?;
    }
    line.push_str("\"")?;
    Ok(line)
}

/// Whether two runs took turns in the same order.
fn are_the_same(turns: &[WorkerTurn], others: &[WorkerTurn]) -> bool {
    turns.len() == others.len()
        && turns
            .iter()
            .zip(others)
            .all(|(turn, other)| turn.actor() == other.actor())
}

/// Whether these turns are unlike all of the earlier ones.
fn is_new(earlier: &[Turns], turns: &[WorkerTurn]) -> bool {
    !earlier
        .iter()
        .any(|others| are_the_same(others.as_slice(), turns))
}

/// The turns of a plan's run in the order of this number, if it is as one at a time.
fn turns_in_order(
    alloc: Global,
    program: &Program,
    plan: &str,
    number: u64,
) -> Result<Option<Turns>, AllocError> {
    let line = order_line(alloc, number)?;
    turns_of_reference(alloc, program, line.as_str(), plan)
}

/// Keeps the turns that are unlike all of the earlier ones; whether they are.
fn keep_new(earlier: &mut Vec<Turns>, turns: Option<Turns>) -> Result<bool, AllocError> {
    match turns {
        Some(turns) if is_new(earlier.as_slice(), turns.as_slice()) => {
            earlier.push(turns)?;
            Ok(true)
        }
        _ => Ok(false),
    }
}

/// Runs a plan in the order of this number, and says so where it isn't as one at a time, or is one of the earlier ones.
fn run_order<R: Print + AllocGlobal>(
    rt: &R,
    program: &Program,
    name: &str,
    plan: &str,
    number: u64,
    earlier: &mut Vec<Turns>,
) -> io::Result<()> {
    let turns = turns_in_order(rt.alloc(), program, plan, number)?;
    if keep_new(earlier, turns)? {
        Ok(())
    } else {
        println!(rt; "{name}: order {number} is not")
    }
}

/// Runs a plan in the orders, and counts those that are as one at a time, each unlike all before it.
fn count_orders<R: Print + AllocGlobal>(
    rt: &R,
    program: &Program,
    name: &str,
    plan: &str,
) -> io::Result<u64> {
    let mut earlier: Vec<Turns> = Vec::new(rt.alloc());
    for number in 1..=ORDERS {
        run_order(rt, program, name, plan, number, &mut earlier)?;
    }
    Ok(earlier.len() as u64)
}

/// Runs a plan in the orders, and says of how many the run is as one at a time.
pub fn run_in_orders<R: Print + AllocGlobal>(
    rt: &R,
    program: &Program,
    name: &str,
    plan: &str,
) -> io::Result<()> {
    let count = count_orders(rt, program, name, plan)?;
    println!(rt; "{name}: {count} of {ORDERS} orders are as one at a time")
}

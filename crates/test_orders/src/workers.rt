//! Runs by worker threads, and replays in the orders that they print; and rebuilds by two threads.

use crate::as_reference::is_reference_run;
use run_turns::WorkerTurn;
use std::alloc::{AllocError, Global};
use std::io;
use test_program::{Meeting, Program, Ran, SOUND, run, run_between};

/// How many workers each plan is run by.
const WORKERS: [&str; 4] = ["1", "2", "4", "16"];

/// The order that a report prints, if it prints one.
fn order_in(report: &str) -> Option<&str> {
    for line in report.lines() {
        if let Some(order) = line.strip_prefix("order ") {
            return Some(order);
        }
    }
    None
}

/// Whether the replay of this plan prints this report.
fn is_printed(
    alloc: Global,
    program: &Program,
    plan: &[u8],
    report: &[u8],
) -> Result<bool, AllocError> {
    let ran = run(alloc, program, "replay", plan)?;
    Ok(ran.printed() == report)
}

/// Whether the replay of a plan in this order prints this report.
fn is_reported(
    alloc: Global,
    program: &Program,
    order: &str,
    plan: &str,
    report: &[u8],
) -> Result<bool, AllocError> {
    let ordered = format!(in alloc; "turns = \"{order}\"\n{plan}")?;
    is_printed(alloc, program, ordered.as_str().as_bytes(), report)
}

/// Whether a run of a plan is as one at a time, and has the report of its replay in the order that it prints.
fn has_replay(alloc: Global, program: &Program, plan: &str, ran: &Ran) -> Result<bool, AllocError> {
    let printed = ran.printed();
    if !is_reference_run(alloc, plan.as_bytes(), ran)? {
        return Ok(false);
    }
    match order_in(str::from_utf8(printed).unwrap_or("")) {
        Some(order) => is_reported(alloc, program, order, plan, printed),
        None => Ok(false),
    }
}

fn run_by(alloc: Global, program: &Program, plan: &str, workers: &str) -> Result<Ran, AllocError> {
    let words = format!(in alloc; "run --workers {workers}")?;
    run(alloc, program, words.as_str(), plan.as_bytes())
}

/// Whether a plan's run by this many workers is as one at a time, and has the report of its replay in the order that it prints.
fn is_replayed(
    alloc: Global,
    program: &Program,
    plan: &str,
    workers: &str,
) -> Result<bool, AllocError> {
    let ran = run_by(alloc, program, plan, workers)?;
    has_replay(alloc, program, plan, &ran)
}

/// Runs a plan by one worker, two, four and sixteen, and counts those whose run is replayed the same.
fn count_replayed(alloc: Global, program: &Program, plan: &str) -> Result<u64, AllocError> {
    let mut count = 0u64;
    for workers in &WORKERS {
        if is_replayed(alloc, program, plan, workers)? {
            count = count.saturating_add(1);
        }
    }
    Ok(count)
}

/// Whether these are the turns of two workers.
fn are_of_two(turns: &[WorkerTurn]) -> bool {
    match turns {
        [one, other] => one.worker() != other.worker(),
        _ => false,
    }
}

/// Whether two workers that meet before each of their first eight turns take them in turn, as only threads do.
fn do_meet(alloc: Global, program: &Program, plan: &str) -> Result<bool, AllocError> {
    let gate = Meeting::new(9);
    let words = "run --workers 2";
    let ran = run_between(alloc, program, words, plan.as_bytes(), SOUND, &gate)?;
    let turns = ran.ended.turns.as_slice();
    Ok(ran.ended.status == 0 && turns.len() >= 16 && turns.chunks(2).take(8).all(are_of_two))
}

/// Runs a plan by two workers that meet, and says whether they do.
pub fn run_by_meeting<R: Print + AllocGlobal>(
    rt: &R,
    program: &Program,
    name: &str,
    plan: &str,
) -> io::Result<()> {
    if do_meet(rt.alloc(), program, plan)? {
        println!(rt; "{name}: two workers meet before each of eight turns")
    } else {
        println!(rt; "{name}: two workers don't meet before each of eight turns")
    }
}

/// Whether two shards of a rebuild, each of which waits at the gate for the other before it begins, do meet, and print the table that
/// one shard prints.
fn shards_meet(alloc: Global, program: &Program, plan: &str) -> Result<bool, AllocError> {
    let gate = Meeting::new(1);
    let words = "rebuild --workers 2";
    let ran = run_between(alloc, program, words, plan.as_bytes(), SOUND, &gate)?;
    let alone = run(alloc, program, "rebuild --workers 1", plan.as_bytes())?;
    Ok(gate.all_met() && ran.ended.status == 0 && ran.printed() == alone.printed())
}

/// Rebuilds a plan's table by two shards that meet, and says whether they do.
pub fn rebuild_by_meeting<R: Print + AllocGlobal>(
    rt: &R,
    program: &Program,
    name: &str,
    plan: &str,
) -> io::Result<()> {
    if shards_meet(rt.alloc(), program, plan)? {
        println!(rt; "{name}: two shards meet, and print the table of one")
    } else {
        println!(rt; "{name}: two shards don't meet, or print another table than one")
    }
}

/// Runs a plan by its workers, and says how many of the runs are replayed the same.
pub fn run_by_workers<R: Print + AllocGlobal>(
    rt: &R,
    program: &Program,
    name: &str,
    plan: &str,
) -> io::Result<()> {
    let count = count_replayed(rt.alloc(), program, plan)?;
    println!(rt; "{name}: {count} of 4 runs by workers are replayed the same")
}

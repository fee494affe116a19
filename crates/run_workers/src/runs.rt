//! A run by worker threads.

ghost use Rattle.std.specs.Prelude.{◌≡◌, ◌≤◌, [], true, vec_capacity, IfOk};
ghost use Rattle.tool_program.specs.JournalWords.Journals.{opening, state_at};
ghost use Rattle.tool_program.specs.JournalWords.Sessions.{NumbersSessions};
ghost use Rattle.tool_program.specs.Orders.{RunOrder};
ghost use Rattle.proof_journals.specs.Run.Kept.{IsKept};
ghost use Rattle.run_turns.specs.Runs.{is_over, Stops};
ghost use Rattle.run_workers.specs.WorkerRun.Workers.{IsGoing};
ghost use Rattle.run_workers.specs.Passes.{IsByPasses};

use crate::worker_run::Worked;
use base_edges::Gate;
use run_desk::Passes;
use run_desk::turn_queue_workers::take_turns;
use run_turns::{FeedRun, Run, WorkerTurn};
use server_api::Serve;
use std::alloc::{AllocError, Global};
use std::snapshot::Snapshot;
use std::sync::Wait;
use std::thread::Threads;

/// What workers leave of a run.
#[derive(Drop)]
pub struct Ran<'a, V: Serve> {
    /// The run, with the turns that were taken.
    pub run: Run<'a, V>,
    /// The worker of each of its turns.
    pub turns: Vec<WorkerTurn>,
    /// Whether it is over; else there was no memory for a turn.
    pub is_over: bool,
    /// The passes by which the workers took them, for contracts alone. The turn queue alone makes passes, and a pass gets a
    /// turn only by taking it there: so turns that were taken elsewhere can't be these passes'.
    pub passes: Snapshot<Passes<Worked<'a, V>>>,
}

/// Lets `workers` workers take the turns of a run with its replica, each in a thread of its own, until it is over or there is no memory for a
/// turn; what is left is the run, the worker of each of its turns, with room for as many as the plan allows, and the passes by which
/// they were taken. Workers wait for each other's turns in the turn queue.
pub fn run_by_workers<'a, V: Serve + Send, R: Threads + Wait + Sync, G: Gate + Sync>(
    rt: &R,
    alloc: Global,
    feed: FeedRun<'a, V>,
    workers: u32,
    gate: &G,
) -> Result<Ran<'a, V>, AllocError>
    requires some { 1 ≤ workers }
    requires few { workers ≤ 16 }
    requires going { IsGoing feed.run.plan }
    requires fresh { feed.run.journal ≡ [] }
    requires server { feed.run.server ≡ opening feed.run.plan }
    ensures plan { IfOk result (λ ran. ran.run.plan ≡ feed.entry.run.plan) }
    ensures kept { IfOk result (λ ran. IsKept feed.entry.run.plan ran.run.journal) }
    ensures numbered { IfOk result (λ ran. NumbersSessions ran.run.journal) }
    ensures stops { IfOk result (λ ran. Stops feed.entry.run.plan ran.run.journal) }
    ensures order { IfOk result (λ ran. RunOrder feed.entry.run.plan ran.run.journal ran.turns.items workers) }
    ensures room { IfOk result (λ ran. feed.entry.run.plan.options.turn_limit ≤ vec_capacity ran.turns) }
    ensures passes { IfOk result (λ ran. IsByPasses ran.passes.value.items ran.run.journal ran.turns.items workers) }
    ensures over { IfOk result (λ ran. ran.is_over ≡ true → is_over feed.entry.run.plan ran.run.journal ≡ true) }
    ensures server { IfOk result (λ ran. ran.is_over ≡ true → ran.run.server ≡ state_at feed.entry.run.plan ran.run.journal) }
{
    let worked = Worked::open(alloc, feed, workers)?;
    let done = take_turns(rt, alloc, worked, workers, gate)?;
    let (run, turns) = done.shared_state.stop();
    Ok(Ran {
        run,
        turns,
        is_over: done.is_over,
        passes: done.passes,
    })
}

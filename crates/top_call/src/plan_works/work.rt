//! The run of a plan by workers.

ghost use Rattle.std.specs.Prelude.{◌≡◌, ◌≤◌, true, vec_capacity, IfSome, IfOk};
ghost use Rattle.tool_program.specs.JournalWords.Journals.{opening, state_at};
ghost use Rattle.proof_plans.specs.ReadPlans.Laws.{WasRead};
ghost use Rattle.run_turns.specs.Runs.{is_over};
ghost use Rattle.top_call.specs.Outcomes.{IsRunTaken};
ghost use Rattle.top_call.specs.ResumedRuns.{IsEnd};
ghost use Rattle.top_call.specs.PlanWorks.Works.{IsSoundRunByWorkers};

use crate::resumed_runs::{RunResult, whole_run};
use crate::whole_replays::kept_runs_are_sound;
use crate::workers::read_plans_go;
use base_edges::Gate;
use law_journals::plans::{read_options_allow, read_plans_are_runnable};
use plan_data::Plan;
use run_turns::{FeedRun, Run};
use run_workers::{Ran, run_by_workers};
use server_api::Serve;
use std::alloc::{AllocError, Global};
use std::sync::Wait;
use std::thread::Threads;

/// The run of a plan that was read, whose turns `workers` worker threads take until it is over. Where there is no memory for a turn,
/// those before it are left.
fn worked_run<'a, V: Serve + Send, R: Threads + Wait + Sync, G: Gate + Sync>(
    rt: &R,
    alloc: Global,
    plan: &'a Plan,
    server: V,
    workers: u32,
    gate: &G,
) -> Result<Ran<'a, V>, AllocError>
    requires some { 1 ≤ workers }
    requires few { workers ≤ 16 }
    requires read { WasRead plan.now }
    requires server { V.state server ≡ opening plan.now }
    ensures plan { IfOk result (λ ran. ran.run.plan ≡ plan.now) }
    ensures run { IfOk result (λ ran. IsSoundRunByWorkers plan.now ran.run.journal ran.turns.items workers) }
    ensures room { IfOk result (λ ran. plan.now.options.turn_limit ≤ vec_capacity ran.turns) }
    ensures over { IfOk result (λ ran. ran.is_over ≡ true → is_over plan.now ran.run.journal ≡ true) }
    ensures server { IfOk result (λ ran. ran.is_over ≡ true → ran.run.server ≡ state_at plan.now ran.run.journal) }
{
    kept_runs_are_sound();
    read_plans_are_runnable();
    read_options_allow();
    read_plans_go();
    let opened = Run::open(alloc, plan, server)?;
    let feed = FeedRun::open(alloc, opened)?;
    let ran = run_by_workers(rt, alloc, feed, workers, gate)?;
    // For the prover: `journal` says that there are no more turns than the plan allows.
    let _few = ran.run.journal();
    Ok(ran)
}

/// Runs a plan that was read by `workers` worker threads, on a server at its opening, until the run is over, and where it is resumed,
/// a new tool behind it, which no worker serves. Where there is no memory for a turn, those before it are left. Workers wait for each
/// other's turns. The room for the list of turns is made before the first of them, and grows with a new tool's.
pub fn work_plan<V: Serve + Send, R: Threads + Wait + Sync, G: Gate + Sync>(
    rt: &R,
    alloc: Global,
    plan: &Plan,
    server: V,
    workers: u32,
    gate: &G,
) -> Result<RunResult<V>, AllocError>
    requires some { 1 ≤ workers }
    requires few { workers ≤ 16 }
    requires read { WasRead plan.now }
    requires server { V.state server ≡ opening plan.now }
    ensures taken { IfOk result (λ left. IsRunTaken workers plan.now left.turns left.journal) }
    ensures end { IfOk result (λ left. IfSome left.end (λ end. IsEnd plan.now left.journal end.verdict (V.state end.server) end.sessions)) }
{
    let ran = worked_run(rt, alloc, plan, server, workers, gate)?;
    Ok(whole_run(alloc, ran.run, ran.is_over, ran.turns))
}

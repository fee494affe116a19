//! What comes of a plan.

ghost use Rattle.std.specs.Prelude.{◌≡◌, ◌≢◌, ◌≤◌, ◌<◌, ◌^◌, true, false, [], ◌∷◌, None, IfSome, IfOk};
ghost use Rattle.server_model.specs.declared.outcome.Verdict.TheVariants as verdicts;
ghost use Rattle.proof_plans.specs.ReadPlans.Laws.{WasRead};
ghost use Rattle.run_rebuild.specs.ShardNumbers.{AreShards};
ghost use Rattle.run_replay.specs.WholeReplay.Marks.{logged_at_mark};
ghost use Rattle.top_endings.specs.declared.command.PlanCommand.TheVariants as plans;
ghost use Rattle.top_endings.specs.Rebuilt.{has_second_unique};
ghost use Rattle.top_call.specs.ResumedRuns.{IsEnd, Resumes, run_in};
ghost use Rattle.top_call.specs.WholeReplays.Replays.{IsSoundReplay};
ghost use Rattle.top_call.specs.Outcomes.{IsRunPrinted, IsTaken, Takes, rebuild_at, report_at, status_of, trace_at};

use crate::finishes::finishes_tell_the_alter;
use crate::plan_rebuilds::rebuilt;
use crate::plan_works::work_plan;
use crate::resumed_runs::{End, RunResult};
use crate::status::status_of;
use crate::whole_replays::{Replay, open_plan, replay_plan};
use base_edges::Gate;
use base_values::{Sequence, Text};
use plan_data::Plan;
use run_turns::Turns;
use server::Server;
use server_api::Serve;
use server_model::{Journal, Verdict};
use std::alloc::{AllocError, Global};
use std::sync::Wait;
use std::thread::Threads;
use top_endings::Printed;
use top_report::report;
use top_trace::print_trace;

/// What the words and the source come to.
#[derive(Drop)]
pub struct Outcome {
    /// What is printed; none where memory ran out.
    pub printed: Option<Printed>,
    /// Whose turns were taken.
    pub turns: Turns,
    /// The turns.
    pub journal: Journal,
}

/// What comes where no turn is taken.
pub(crate) fn untaken(alloc: Global, printed: Option<Printed>) -> Outcome
    ensures { result ≡ record { printed = printed; turns = []; journal = [] } }
{
    Outcome {
        printed,
        turns: Sequence::new(alloc),
        journal: Journal::new(alloc),
    }
}

/// What is printed of a run with this verdict.
fn printed(verdict: &Verdict, text: Text) -> Printed
    ensures { result ≡ record { status = status_of verdict.now; text = text } }
{
    Printed {
        status: status_of(verdict),
        text,
    }
}

/// How many sessions a server makes is a number of 32 bits.
fn sessions_are_few(sessions: u32)
    ensures { sessions < 2 ^ 32 }
{}

/// The report of a run that ended.
fn reported<V: Serve>(
    alloc: Global,
    plan: &Plan,
    journal: &Journal,
    end: &Option<End<V>>,
) -> Option<Printed>
    requires { IfSome end.now (λ end. IsEnd plan.now journal.now end.verdict (V.state end.server) end.sessions) }
    ensures report { IfSome result (IsRunPrinted (report_at plan.now journal.now) plan.now journal.now) }
    ensures none { end.now ≡ None → result ≡ None }
{
    let end = end.as_ref()?;
    sessions_are_few(end.sessions);
    let tables = end.server.tables();
    match report(alloc, plan, journal, &end.verdict, tables) {
        Ok(text) => Some(printed(&end.verdict, text)),
        Err(_) => None,
    }
}

/// The trace of a run that ended, of the plan of this text.
fn traced<V: Serve>(
    alloc: Global,
    plan_text: &str,
    plan: &Plan,
    journal: &Journal,
    end: &Option<End<V>>,
) -> Option<Printed>
    requires { IfSome end.now (λ end. IsEnd plan.now journal.now end.verdict (V.state end.server) end.sessions) }
    ensures { IfSome result (IsRunPrinted (trace_at plan_text.now plan.now journal.now) plan.now journal.now) }
{
    let end = end.as_ref()?;
    sessions_are_few(end.sessions);
    let tables = end.server.tables();
    match print_trace(alloc, plan_text, plan, journal, &end.verdict, tables) {
        Ok(text) => Some(printed(&end.verdict, text)),
        Err(_) => None,
    }
}

/// The replay of a plan. Where there is no memory for the list of turns, or for the server, no turn is taken.
fn replayed(alloc: Global, plan: &Plan) -> Result<Replay<Server>, AllocError>
    requires { WasRead plan.now }
    ensures takes { IfOk result (λ left. Takes plans.Replay plan.now left.run.turns left.run.journal) }
    ensures logged { IfOk result (λ left. left.logged ≡ logged_at_mark plan.now (plan.now.table ∷ []) (run_in plan.now left.run.journal)) }
    ensures end { IfOk result (λ left. IfSome left.run.end (λ end. IsEnd plan.now left.run.journal end.verdict end.server.state end.sessions)) }
{
    // The room for the turns is made before the first, so that none that was taken is thrown away.
    let room = Vec::with_capacity(alloc, plan.options().turn_limit as usize)?;
    let server = open_plan(alloc, plan)?;
    replay_plan(alloc, plan, server, room)
}

/// What comes of the replay of a plan.
pub(crate) fn plan_replayed(alloc: Global, plan: &Plan) -> Result<Outcome, AllocError>
    requires { WasRead plan.now }
    ensures { IfOk result (λ outcome. IsTaken plans.Replay plan.now (report_at plan.now outcome.journal) outcome.printed outcome.turns outcome.journal) }
{
    let Replay {
        run: left,
        logged: _,
    } = replayed(alloc, plan)?;
    Ok(Outcome {
        printed: reported(alloc, plan, &left.journal, &left.end),
        turns: left.turns,
        journal: left.journal,
    })
}

/// The same, with the run's trace in place of its report.
pub(crate) fn plan_traced(
    alloc: Global,
    plan_text: &str,
    plan: &Plan,
) -> Result<Outcome, AllocError>
    requires { WasRead plan.now }
    ensures { IfOk result (λ outcome. IsTaken plans.Trace plan.now (trace_at plan_text.now plan.now outcome.journal) outcome.printed outcome.turns outcome.journal) }
{
    let Replay {
        run: left,
        logged: _,
    } = replayed(alloc, plan)?;
    Ok(Outcome {
        printed: traced(alloc, plan_text, plan, &left.journal, &left.end),
        turns: left.turns,
        journal: left.journal,
    })
}

/// Whether a run ended with the RENAME done.
fn is_done<V: Serve>(end: &Option<End<V>>) -> bool
    ensures done { result ≡ true → IfSome end.now (λ end. end.verdict ≡ verdicts.Done) }
    ensures undone { result ≡ false → IfSome end.now (λ end. end.verdict ≢ verdicts.Done) }
{
    match end {
        Some(end) => matches!(end.verdict, Verdict::Done),
        None => false,
    }
}

/// What comes of a run in which the RENAME wasn't done: its report.
fn reported_after<V: Serve>(alloc: Global, plan: &Plan, left: RunResult<V>) -> Outcome
    requires end { IfSome left.end (λ end. IsEnd plan.now left.journal end.verdict (V.state end.server) end.sessions) }
    requires undone { IfSome left.end (λ end. end.verdict ≢ verdicts.Done) }
    ensures printed { IfSome result.printed (IsRunPrinted (rebuild_at plan.now left.journal) plan.now left.journal) }
    ensures turns { result.turns ≡ left.turns }
    ensures journal { result.journal ≡ left.journal }
{
    let printed = reported(alloc, plan, &left.journal, &left.end);
    Outcome {
        printed,
        turns: left.turns,
        journal: left.journal,
    }
}

/// What comes of a run: where the RENAME was done, the table that is made anew from the log; else the report.
fn rebuilt_or_reported<V: Serve, R: Threads + Sync, G: Gate + Sync>(
    rt: &R,
    alloc: Global,
    plan: &Plan,
    left: Replay<V>,
    workers: u32,
    gate: &G,
) -> Outcome
    requires workers { AreShards workers }
    requires read { WasRead plan.now }
    requires replay { IsSoundReplay plan.now (run_in plan.now left.run.journal) }
    requires resumes { Resumes plan.now left.run.journal }
    requires logged { left.logged ≡ logged_at_mark plan.now (plan.now.table ∷ []) (run_in plan.now left.run.journal) }
    requires end { IfSome left.run.end (λ end. IsEnd plan.now left.run.journal end.verdict (V.state end.server) end.sessions) }
    ensures printed { IfSome result.printed (IsRunPrinted (rebuild_at plan.now left.run.journal) plan.now left.run.journal) }
    ensures turns { result.turns ≡ left.run.turns }
    ensures journal { result.journal ≡ left.run.journal }
{
    if !is_done(&left.run.end) {
        return reported_after(alloc, plan, left.run);
    }
    finishes_tell_the_alter();
    let Replay { run, logged } = left;
    let RunResult {
        journal,
        turns,
        end,
    } = run;
    match end {
        // The log is read by one more session: else no number would be left for it.
        Some(end) if end.sessions < u32::MAX => {
            let printed = rebuilt(rt, alloc, plan, end.server, logged, workers, gate);
            Outcome {
                printed,
                turns,
                journal,
            }
        }
        _ => Outcome {
            printed: None,
            turns,
            journal,
        },
    }
}

/// The same as of a replay, with the table that is made anew in place of the report, where the RENAME was done.
pub(crate) fn plan_rebuilt<R: Threads + Sync, G: Gate + Sync>(
    rt: &R,
    alloc: Global,
    plan: &Plan,
    workers: u32,
    gate: &G,
) -> Result<Outcome, AllocError>
    requires workers { AreShards workers }
    requires read { WasRead plan.now }
    requires single { has_second_unique plan.now ≡ false }
    ensures { IfOk result (λ outcome. IsTaken (plans.Rebuild workers) plan.now (rebuild_at plan.now outcome.journal) outcome.printed outcome.turns outcome.journal) }
{
    let left = replayed(alloc, plan)?;
    Ok(rebuilt_or_reported(rt, alloc, plan, left, workers, gate))
}

/// What comes of the run of a plan by `workers` workers. Where there is no memory for the list of turns, for the server or for
/// the turn queue, no turn is taken.
pub(crate) fn plan_worked<R: Threads + Wait + Sync, G: Gate + Sync>(
    rt: &R,
    alloc: Global,
    plan: &Plan,
    workers: u32,
    gate: &G,
) -> Result<Outcome, AllocError>
    requires some { 1 ≤ workers }
    requires few { workers ≤ 16 }
    requires read { WasRead plan.now }
    ensures { IfOk result (λ outcome. IsTaken (plans.Run workers) plan.now (report_at plan.now outcome.journal) outcome.printed outcome.turns outcome.journal) }
{
    let server = open_plan(alloc, plan)?;
    let left = work_plan(rt, alloc, plan, server, workers, gate)?;
    Ok(Outcome {
        printed: reported(alloc, plan, &left.journal, &left.end),
        turns: left.turns,
        journal: left.journal,
    })
}

//! The top call: all that the program does.

ghost use Rattle.std.specs.Prelude.{◌≡◌, ◌≤◌, ◌==◌, ℕ, true, false, [], length, Some, None, IfSome, IfOk, IfErr};
ghost use Rattle.std.specs.Str.{is_utf8};
ghost use Rattle.std.specs.Io.KnownBytes.{Consumes};
ghost use Rattle.top_words.specs.Commands.{command};
ghost use Rattle.top_words.specs.declared.command.Command.TheVariants.{Audit, Check, Generate, Rebuild, Replay, Run, Trace};
ghost use Rattle.top_endings.specs.declared.command.PlanCommand.TheVariants as plans;
ghost use Rattle.server_model.specs.declared.outcome.Verdict.TheVariants as verdicts;
ghost use Rattle.proof_plans.specs.ReadPlans.Laws.{WasRead};
ghost use Rattle.top_endings.specs.Endings.{gave, HasWorkers, IsUsageOrLost, reads_source, took};
ghost use Rattle.run_audit.specs.declared.trace.Audit.TheVariants as answers;
ghost use Rattle.top_call.specs.Audits.{TellsTrace};
ghost use Rattle.top_call.specs.Comings.{ComesTo, Does, HasNoPlan, IsAccepted, TellsPlan};
ghost use Rattle.top_call.specs.Promises.{Ends, RunsBy, PrintsReport, PrintsSchema, PrintsWorkload, PrintsRevert, PrintsUnfinished, PrintsAnswer, PrintsNo, PrintsRefusal, PrintsUsage, PrintsReadFault, PrintsPrefix, PrintsNone};
ghost use Rattle.top_call.specs.TopLaws.{Laws};

use crate::audits::trace_audited;
use crate::finishes::finishes_tell_the_alter;
use crate::outcome::{Outcome, plan_rebuilt, plan_replayed, plan_traced, plan_worked, untaken};
use base_edges::{Gate, ReadFault, Sink, Source, read_whole};
use law_journals::completion::{quiet_runs_are_done, smooth_runs_are_done};
use law_journals::machines::verdicts_tell_the_alter;
use law_journals::plans::{read_options_allow, read_plans_are_runnable, read_plans_are_serial};
use plan_data::Plan;
use plan_reader::{PLAN_LIMIT, PlanFault};
use proof_plans::read_accepted_plan;
use run_turns::Turns;
use server_model::Journal;
use std::alloc::Global;
use std::sync::Wait;
use std::thread::Threads;
use top_endings::{
    Refusal, give, has_second_unique, plan_checked, read_fault_shown, refused, usage_shown,
    workload_shown,
};
use top_trace_reader::TRACE_LIMIT;
use top_words::{Command, Line};

/// How a call of `ghost_` ended.
#[derive(Drop)]
pub struct Ended {
    /// The number of its status.
    pub status: u8,
    /// Whose turns its run took, in order, and a new tool's behind them where one came; none where no plan was run.
    pub turns: Turns,
    /// The turns of its run, as the run kept them, and the new tool's; none where no plan was run.
    pub journal: Journal,
}

/// A plan that was accepted.
#[derive(Drop)]
struct Accepted {
    /// The bytes that it was read from.
    bytes: Vec<u8>,
    plan: Plan,
}

/// The text that bytes spell.
fn text_of(bytes: &[u8]) -> &str
    requires { is_utf8 bytes.now ≡ true }
    ensures { result.now ≡ bytes.now }
{
    match str::from_utf8(bytes) {
        Ok(text) => text,
        Err(_) => unreachable!(),
    }
}

/// The plan that a source has; or what comes of the source where its bytes are no accepted plan, whatever is to be done with it.
#[tactic(auto, using(crate::proofs::Comings::accepted_by, crate::proofs::Comings::plans_are_utf8, crate::proofs::Comings::nothing_reported, crate::proofs::Comings::fault_reported, crate::proofs::Comings::refusal_reported))]
fn accepted_plan<S: Source>(alloc: Global, source: &mut S) -> Result<Accepted, Outcome>
    ensures plan { IfOk result (λ accepted. IsAccepted (took S.left S.faults source.old source.new) accepted.bytes.items accepted.plan) }
    ensures was_read { IfOk result (λ accepted. WasRead accepted.plan) }
    ensures utf8 { IfOk result (λ accepted. is_utf8 accepted.bytes.items ≡ true) }
    ensures none { IfErr result (λ outcome. HasNoPlan (took S.left S.faults source.old source.new) outcome.printed outcome.turns outcome.journal) }
    ensures never_falls { S.faults source.old ≤ S.faults source.new }
{
    match read_whole(alloc, source, PLAN_LIMIT) {
        Ok(bytes) => match read_accepted_plan(alloc, bytes.as_slice()) {
            Ok(plan) => Ok(Accepted { bytes, plan }),
            Err(PlanFault::Refused(refusal)) => Err(untaken(
                alloc,
                refused(alloc, Refusal::Plan(refusal)),
            )),
            Err(PlanFault::Memory) => Err(untaken(alloc, None)),
        },
        Err(ReadFault::Source) => Err(untaken(alloc, read_fault_shown(alloc))),
        Err(ReadFault::Memory) => Err(untaken(alloc, None)),
    }
}

/// What a source comes to under `check`.
#[tactic(auto, using(crate::proofs::Comings::schema_reported))]
fn outcome_of_check<S: Source>(alloc: Global, source: &mut S) -> Outcome
    ensures comes { TellsPlan plans.Check (took S.left S.faults source.old source.new) result.printed result.turns result.journal }
    ensures never_falls { S.faults source.old ≤ S.faults source.new }
{
    match accepted_plan(alloc, source) {
        Ok(accepted) => untaken(alloc, plan_checked(alloc, &accepted.plan)),
        Err(outcome) => outcome,
    }
}

/// What a source comes to under `replay`.
#[tactic(auto, using(crate::proofs::Comings::nothing_reported, crate::proofs::Comings::replay_reported))]
fn outcome_of_replay<S: Source>(alloc: Global, source: &mut S) -> Outcome
    ensures comes { TellsPlan plans.Replay (took S.left S.faults source.old source.new) result.printed result.turns result.journal }
    ensures never_falls { S.faults source.old ≤ S.faults source.new }
{
    match accepted_plan(alloc, source) {
        Ok(accepted) => match plan_replayed(alloc, &accepted.plan) {
            Ok(outcome) => outcome,
            Err(_) => untaken(alloc, None),
        },
        Err(outcome) => outcome,
    }
}

/// What a source comes to under `trace`.
#[tactic(auto, using(crate::proofs::Comings::nothing_reported, crate::proofs::Comings::trace_reported))]
fn outcome_of_trace<S: Source>(alloc: Global, source: &mut S) -> Outcome
    ensures comes { TellsPlan plans.Trace (took S.left S.faults source.old source.new) result.printed result.turns result.journal }
    ensures never_falls { S.faults source.old ≤ S.faults source.new }
{
    match accepted_plan(alloc, source) {
        Ok(accepted) => {
            let text = text_of(accepted.bytes.as_slice());
            match plan_traced(alloc, text, &accepted.plan) {
                Ok(outcome) => outcome,
                Err(_) => untaken(alloc, None),
            }
        }
        Err(outcome) => outcome,
    }
}

/// What a source comes to under `audit`.
#[tactic(auto, using(crate::proofs::Comings::no_trace_reported, crate::proofs::Comings::trace_fault_reported, crate::proofs::Comings::audit_reported))]
fn outcome_of_audit<S: Source>(alloc: Global, source: &mut S) -> Outcome
    ensures comes { TellsTrace (took S.left S.faults source.old source.new) result.printed result.turns result.journal }
    ensures never_falls { S.faults source.old ≤ S.faults source.new }
{
    match read_whole(alloc, source, TRACE_LIMIT) {
        Ok(bytes) => untaken(alloc, trace_audited(alloc, bytes.as_slice())),
        Err(ReadFault::Source) => untaken(alloc, read_fault_shown(alloc)),
        Err(ReadFault::Memory) => untaken(alloc, None),
    }
}

/// What a source comes to under a rebuild by `workers` shards.
#[tactic(auto, using(crate::proofs::Comings::nothing_reported, crate::proofs::Comings::rebuild_reported, crate::proofs::Comings::second_unique_reported))]
fn outcome_of_rebuild<R: Threads + Sync, S: Source, G: Gate + Sync>(
    rt: &R,
    alloc: Global,
    workers: u32,
    source: &mut S,
    gate: &G,
) -> Outcome
    requires { HasWorkers (Rebuild workers) }
    ensures comes { TellsPlan (plans.Rebuild workers) (took S.left S.faults source.old source.new) result.printed result.turns result.journal }
    ensures never_falls { S.faults source.old ≤ S.faults source.new }
{
    match accepted_plan(alloc, source) {
        Ok(accepted) if has_second_unique(&accepted.plan) => {
            untaken(alloc, refused(alloc, Refusal::SecondUnique))
        }
        Ok(accepted) => match plan_rebuilt(rt, alloc, &accepted.plan, workers, gate) {
            Ok(outcome) => outcome,
            Err(_) => untaken(alloc, None),
        },
        Err(outcome) => outcome,
    }
}

/// What a source comes to under a run by `workers` workers.
#[tactic(auto, using(crate::proofs::Comings::nothing_reported, crate::proofs::Comings::run_reported))]
fn outcome_of_run<R: Threads + Wait + Sync, S: Source, G: Gate + Sync>(
    rt: &R,
    alloc: Global,
    workers: u32,
    source: &mut S,
    gate: &G,
) -> Outcome
    requires { HasWorkers (Run workers) }
    ensures comes { TellsPlan (plans.Run workers) (took S.left S.faults source.old source.new) result.printed result.turns result.journal }
    ensures never_falls { S.faults source.old ≤ S.faults source.new }
{
    match accepted_plan(alloc, source) {
        Ok(accepted) => match plan_worked(rt, alloc, &accepted.plan, workers, gate) {
            Ok(outcome) => outcome,
            Err(_) => untaken(alloc, None),
        },
        Err(outcome) => outcome,
    }
}

/// What the words and the source come to, where the words are this command or none; of `run` the number of workers.
#[tactic(auto, using(crate::proofs::Comings::check_comes, crate::proofs::Comings::replay_comes, crate::proofs::Comings::trace_comes, crate::proofs::Comings::audit_comes, crate::proofs::Comings::rebuild_comes, crate::proofs::Comings::faulty_comes, crate::proofs::Comings::workload_comes))]
fn outcome_of_command<R: Threads + Sync, S: Source, G: Gate + Sync>(
    rt: &R,
    alloc: Global,
    chosen: Option<Command>,
    source: &mut S,
    gate: &G,
) -> Result<Outcome, u32>
    requires { IfSome chosen HasWorkers }
    ensures comes { IfOk result (λ outcome. ComesTo chosen (took S.left S.faults source.old source.new) outcome.printed outcome.turns outcome.journal) }
    ensures workers { IfErr result (λ workers. chosen ≡ Some (Run workers)) }
    ensures unmoved { IfErr result (λ workers. source.new ≡ source.old) }
    ensures never_falls { S.faults source.old ≤ S.faults source.new }
{
    match chosen {
        Some(Command::Check) => Ok(outcome_of_check(alloc, source)),
        Some(Command::Replay) => Ok(outcome_of_replay(alloc, source)),
        Some(Command::Run(workers)) => Err(workers),
        Some(Command::Trace) => Ok(outcome_of_trace(alloc, source)),
        Some(Command::Audit) => Ok(outcome_of_audit(alloc, source)),
        Some(Command::Rebuild(workers)) => {
            Ok(outcome_of_rebuild(rt, alloc, workers, source, gate))
        }
        Some(Command::Generate(number)) => Ok(untaken(alloc, workload_shown(alloc, number))),
        None => Ok(untaken(alloc, usage_shown(alloc))),
    }
}

/// What the words and the source come to, for each command but `run`; where the words ask for a run, `Err` has the number of its
/// workers, and the source isn't asked. `ghost_` does all but runs through this call, which has no bound by which it might wait:
/// so it returns. The threads of `rebuild` are joined, each with the one that began it; none can wait for another.
#[tactic(auto, using(crate::proofs::Comings::nothing_comes))]
pub fn outcome_without_waits<R: Threads + Sync, S: Source, G: Gate + Sync>(
    rt: &R,
    alloc: Global,
    line: &Line,
    source: &mut S,
    gate: &G,
) -> Result<Outcome, u32>
    ensures comes { IfOk result (λ outcome. ComesTo (command line.now) (took S.left S.faults source.old source.new) outcome.printed outcome.turns outcome.journal) }
    ensures workers { IfErr result (λ workers. command line.now ≡ Some (Run workers)) }
    ensures unmoved { IfErr result (λ workers. source.new ≡ source.old) }
    ensures never_falls { S.faults source.old ≤ S.faults source.new }
{
    match line.command(alloc) {
        Ok(chosen) => outcome_of_command(rt, alloc, chosen, source, gate),
        Err(_) => Ok(untaken(alloc, None)),
    }
}

/// What the words and the source come to.
#[tactic(auto, using(crate::proofs::Comings::run_comes))]
fn outcome_of_line<R: Threads + Wait + Sync, S: Source, G: Gate + Sync>(
    rt: &R,
    alloc: Global,
    line: &Line,
    source: &mut S,
    gate: &G,
) -> Outcome
    ensures comes { ComesTo (command line.now) (took S.left S.faults source.old source.new) result.printed result.turns result.journal }
    ensures never_falls { S.faults source.old ≤ S.faults source.new }
{
    match outcome_without_waits(rt, alloc, line, source, gate) {
        Ok(outcome) => outcome,
        Err(workers) => outcome_of_run(rt, alloc, workers, source, gate),
    }
}

/// Does what the words ask for, and says how it ended.
fn doing<R: Threads + Wait + Sync, S: Source, K: Sink, G: Gate + Sync>(
    rt: &R,
    alloc: Global,
    line: &Line,
    source: &mut S,
    sink: &mut K,
    gate: &G,
) -> Ended
    ensures does { Does line.now (took S.left S.faults source.old source.new) (gave K.held K.faults sink.old sink.new) result.turns result.journal result.status }
    ensures source_never_falls { S.faults source.old ≤ S.faults source.new }
    ensures sink_never_falls { K.faults sink.old ≤ K.faults sink.new }
{
    let outcome = outcome_of_line(rt, alloc, line, source, gate);
    let status = give(&outcome.printed, sink);
    Ended {
        status: status.number(),
        turns: outcome.turns,
        journal: outcome.journal,
    }
}

/// The laws on which the top call stands.
fn laws_stand()
    ensures { Laws }
{
    verdicts_tell_the_alter();
    read_plans_are_runnable();
    read_plans_are_serial();
    quiet_runs_are_done();
    smooth_runs_are_done();
    read_options_allow();
    finishes_tell_the_alter();
}

/// Does what the words ask for, and says how it ended, with what the laws make of it.
fn ending<R: Threads + Wait + Sync, S: Source, K: Sink, G: Gate + Sync>(
    rt: &R,
    alloc: Global,
    line: &Line,
    source: &mut S,
    sink: &mut K,
    gate: &G,
) -> Ended
    ensures ends { Ends line.now (took S.left S.faults source.old source.new) (gave K.held K.faults sink.old sink.new) result.turns result.journal result.status }
    ensures runs { (length result.journal == 0) ≡ false → RunsBy line.now (took S.left S.faults source.old source.new) result.turns result.journal }
    ensures unread { reads_source (command line.now) ≡ false → Consumes (S.left source.old) (S.left source.new) [] }
    ensures source_never_falls { S.faults source.old ≤ S.faults source.new }
    ensures sink_never_falls { K.faults sink.old ≤ K.faults sink.new }
{
    laws_stand();
    doing(rt, alloc, line, source, sink, gate)
}

/// All that the program does: it gives to the sink what the words ask for, of the plan that the source has.
///
/// The commands are `check`, which prints the schema that the plan's ALTER leaves; `replay`, which runs the plan on one thread
/// and prints the report; `run`, by which worker threads do so, 4 where their number isn't said; `generate`, which prints
/// the plan of a number and reads nothing; `trace`, which runs the plan as `replay` does, and prints the plan and each turn; `audit`,
/// which reads such a text and says whether it breaks a rule, and the first; and `rebuild`, which runs it so too, and prints the table
/// that threads make anew from the log. Where the plan has `resume`, and its run took all turns that the plan allows, hasn't ended and
/// left a checkpoint, a new tool finishes it, whose turns are behind the run's. The gate is told before and after each turn of a worker's,
/// and never while one is held; and before and after each shard of a rebuild. Workers wait for each other's turns; every other command
/// goes through `outcome_without_waits`, which waits for nothing.
pub fn ghost_<R: Threads + Wait + Sync, S: Source, K: Sink, G: Gate + Sync>(
    rt: &R,
    alloc: Global,
    line: &Line,
    source: &mut S,
    sink: &mut K,
    gate: &G,
) -> Ended
    // What the call took, did and gave under its status, in one relation: the clauses below say the same case by case.
    ensures ends { Ends line.now (took S.left S.faults source.old source.new) (gave K.held K.faults sink.old sink.new) result.turns result.journal result.status }

    // The headline: whatever the status, where turns were taken.
    ensures runs { (length result.journal == 0) ≡ false → RunsBy line.now (took S.left S.faults source.old source.new) result.turns result.journal }

    // Under `generate` and faulty words nothing is taken from the source: whatever the status.
    ensures unread { reads_source (command line.now) ≡ false → Consumes (S.left source.old) (S.left source.new) [] }

    ensures done { result.status ≡ 0 → command line.now ≡ Some Replay → PrintsReport plans.Replay verdicts.Done (took S.left S.faults source.old source.new) (gave K.held K.faults sink.old sink.new) result.turns result.journal }
    ensures done_by_workers { (workers : ℕ) → result.status ≡ 0 → command line.now ≡ Some (Run workers) → PrintsReport (plans.Run workers) verdicts.Done (took S.left S.faults source.old source.new) (gave K.held K.faults sink.old sink.new) result.turns result.journal }
    ensures checked { result.status ≡ 0 → command line.now ≡ Some Check → PrintsSchema (took S.left S.faults source.old source.new) (gave K.held K.faults sink.old sink.new) result.turns result.journal }
    ensures generated { (number : ℕ) → result.status ≡ 0 → command line.now ≡ Some (Generate number) → PrintsWorkload number (took S.left S.faults source.old source.new) (gave K.held K.faults sink.old sink.new) result.turns result.journal }
    ensures traced { result.status ≡ 0 → command line.now ≡ Some Trace → PrintsReport plans.Trace verdicts.Done (took S.left S.faults source.old source.new) (gave K.held K.faults sink.old sink.new) result.turns result.journal }
    ensures audited { result.status ≡ 0 → command line.now ≡ Some Audit → PrintsAnswer answers.Yes (took S.left S.faults source.old source.new) (gave K.held K.faults sink.old sink.new) result.turns result.journal }
    ensures rebuilt { (workers : ℕ) → result.status ≡ 0 → command line.now ≡ Some (Rebuild workers) → PrintsReport (plans.Rebuild workers) verdicts.Done (took S.left S.faults source.old source.new) (gave K.held K.faults sink.old sink.new) result.turns result.journal }
    ensures usage { result.status ≡ 1 → PrintsUsage line.now (took S.left S.faults source.old source.new) (gave K.held K.faults sink.old sink.new) result.turns result.journal }
    ensures usage_at_faulty_words { command line.now ≡ None → IsUsageOrLost result.status }
    ensures refused { result.status ≡ 2 → PrintsRefusal line.now (took S.left S.faults source.old source.new) (gave K.held K.faults sink.old sink.new) result.turns result.journal }
    ensures reverted { result.status ≡ 3 → PrintsRevert line.now (took S.left S.faults source.old source.new) (gave K.held K.faults sink.old sink.new) result.turns result.journal }
    ensures read_fault { result.status ≡ 4 → PrintsReadFault line.now (took S.left S.faults source.old source.new) (gave K.held K.faults sink.old sink.new) result.turns result.journal }
    ensures write_fault { result.status ≡ 5 → PrintsPrefix line.now (took S.left S.faults source.old source.new) (gave K.held K.faults sink.old sink.new) result.turns result.journal }
    ensures no_memory { result.status ≡ 6 → PrintsNone line.now (took S.left S.faults source.old source.new) (gave K.held K.faults sink.old sink.new) result.turns result.journal }
    ensures turns_spent { result.status ≡ 7 → PrintsUnfinished line.now (took S.left S.faults source.old source.new) (gave K.held K.faults sink.old sink.new) result.turns result.journal }
    ensures no { result.status ≡ 8 → PrintsNo line.now (took S.left S.faults source.old source.new) (gave K.held K.faults sink.old sink.new) result.turns result.journal }
{
    ending(rt, alloc, line, source, sink, gate)
}

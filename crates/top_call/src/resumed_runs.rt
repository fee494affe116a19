//! A run to its end: where the plan has `resume`, and the run left a checkpoint when its turns were spent, a new tool finishes it.

ghost use Rattle.std.specs.Prelude.{◌≡◌, ◌≤◌, ◌&&◌, not, [], ◌++◌, drop, length, is_some, true, false, Some, None, IfSome, OnOk, OnErr};
ghost use Rattle.std.specs.Vec.{vec_capacity};
ghost use Rattle.tool_program.specs.JournalWords.Journals.{state_at};
ghost use Rattle.tool_program.specs.Verdicts.{has_ended, verdict_of};
ghost use Rattle.tool_finish.specs.Finishes.{finish_verdict, is_over as is_finished, stage_behind};
ghost use Rattle.proof_plans.specs.ReadPlans.Laws.{WasRead};
ghost use Rattle.run_turns.specs.Runs as runs;
ghost use Rattle.run_finish.specs.FinishRuns.{is_ended, TakesNext, IsUnmoved};
ghost use Rattle.top_call.specs.Outcomes.{turns_of};
ghost use Rattle.top_call.specs.ResumedRuns.{FinishesRun, IsEnd, IsEndOf, IsWholeRun};
ghost use Rattle.top_call.specs.WholeReplays.SoundRuns.{IsSoundRun};

use crate::finishes::{finishes_are_sound, finishes_may_call};
use crate::turns::turns_in;
use run_finish::{Finish, FinishFault};
use run_turns::{Run, Stepped, Turns, WorkerTurn};
use server_api::Serve;
use server_model::{Journal, Verdict};
use std::alloc::{AllocError, Global};

/// How a run ended, or the new tool behind it.
#[derive(Drop)]
pub struct End<V: Serve> {
    /// How the migration ended, as the report says it.
    pub verdict: Verdict,
    /// The server at the end.
    pub server: V,
    /// How many sessions it made at most.
    pub sessions: u32,
}

/// What a run leaves, and the new tool behind it where one comes.
#[derive(Drop)]
pub struct RunResult<V: Serve> {
    /// The run's turns, and the new tool's behind them.
    pub journal: Journal,
    /// Whose turns they are.
    pub turns: Turns,
    /// How it ended; none where memory ran out before.
    pub end: Option<End<V>>,
}

/// How a run ended, where there is a verdict.
fn end_with<V: Serve>(verdict: Option<Verdict>, server: V, sessions: u32) -> Option<End<V>>
    ensures some { is_some result ≡ is_some verdict }
    ensures end { IfSome result (λ end. (verdict ≡ Some end.verdict) × (V.state end.server ≡ V.state server) × (end.sessions ≡ sessions)) }
{
    match verdict {
        Some(verdict) => Some(End {
            verdict,
            server,
            sessions,
        }),
        None => None,
    }
}

/// A run for whose next turn, or the new tool's first, there is no memory.
fn short_run<V: Serve>(run: Run<'_, V>) -> (Journal, Option<End<V>>)
    ensures journal { result.0 ≡ run.entry.journal }
    ensures end { result.1 ≡ None }
{
    let (_server, journal) = run.stop();
    (journal, None)
}

/// The verdict of a run, unless there is no memory for the copy that outlives it.
fn run_verdict<V: Serve>(alloc: Global, run: &Run<'_, V>) -> Option<Verdict>
    ensures { IfSome result (λ verdict. verdict ≡ verdict_of run.now.plan run.now.journal) }
{
    run.verdict().copied(alloc).ok()
}

/// The verdict of a new tool, where it is over, unless there is no memory for the copy that outlives it.
fn finish_verdict<V: Serve>(alloc: Global, finish: &Finish<'_, V>, is_over: bool) -> Option<Verdict>
    ensures verdict { IfSome result (λ verdict. verdict ≡ finish_verdict finish.now.plan finish.now.run finish.now.turns) }
    ensures over { IfSome result (λ verdict. is_over ≡ true) }
{
    if !is_over {
        return None;
    }
    finish.verdict().copied(alloc).ok()
}

/// A run behind which no new tool comes.
fn run_alone<V: Serve>(alloc: Global, run: Run<'_, V>) -> (Journal, Option<End<V>>)
    requires server { run.server ≡ state_at run.plan run.journal }
    ensures journal { result.0 ≡ run.entry.journal }
    ensures end { IfSome result.1 (λ end. IsEndOf (verdict_of run.entry.plan run.entry.journal) (state_at run.entry.plan run.entry.journal) end.verdict (V.state end.server) end.sessions) }
{
    let verdict = run_verdict(alloc, &run);
    let sessions = run.sessions();
    let (server, journal) = run.stop();
    (journal, end_with(verdict, server, sessions))
}

/// Takes the new tool's next turn. The room for it in the list of turns is made before, so that none that was taken is thrown away.
fn take_turn<V: Serve>(
    finish: &mut Finish<'_, V>,
    room: &mut Vec<WorkerTurn>,
) -> Result<(), AllocError>
    requires going { is_ended finish.old ≡ false }
    requires capacity { length (finish.old.run ++ finish.old.turns) ≤ vec_capacity room.old }
    ensures items { room.new.items ≡ room.old.items }
    ensures capacity { length (finish.new.run ++ finish.new.turns) ≤ vec_capacity room.new }
    ensures ok { OnOk result (TakesNext finish.old finish.new) }
    ensures err { OnErr result (IsUnmoved finish.old finish.new) }
{
    room.reserve(finish.journal().len() + 1)?;
    match finish.step() {
        Stepped::Took => Ok(()),
        Stepped::Over | Stepped::Idle | Stepped::NoMemory => Err(AllocError),
    }
}

/// Takes the new tool's turns until it is over, and says whether it is: where there is no memory for a turn, those before it stay.
fn take_turns<V: Serve>(finish: &mut Finish<'_, V>, room: &mut Vec<WorkerTurn>) -> bool
    requires capacity { length (finish.old.run ++ finish.old.turns) ≤ vec_capacity room.old }
    requires server { finish.old.server ≡ state_at finish.old.plan (finish.old.run ++ finish.old.turns) }
    ensures plan { finish.new.plan ≡ finish.old.plan }
    ensures run { finish.new.run ≡ finish.old.run }
    ensures items { room.new.items ≡ room.old.items }
    ensures capacity { length (finish.new.run ++ finish.new.turns) ≤ vec_capacity room.new }
    ensures over { result ≡ true → is_ended finish.new ≡ true }
    ensures server { result ≡ true → finish.new.server ≡ state_at finish.new.plan (finish.new.run ++ finish.new.turns) }
{
    // It is over long before: no journal has so many turns.
    for _turn in 0..u64::MAX {
        if finish.ended() {
            return true;
        }
        if take_turn(finish, room).is_err() {
            return false;
        }
    }
    false
}

/// A run that a new tool goes on with until it is over.
fn finished_run<V: Serve>(
    alloc: Global,
    finish: Finish<'_, V>,
    room: &mut Vec<WorkerTurn>,
) -> (Journal, Option<End<V>>)
    requires fresh { finish.turns ≡ [] }
    requires server { finish.server ≡ state_at finish.plan finish.run }
    requires capacity { length finish.run ≤ vec_capacity room.old }
    ensures finish { FinishesRun finish.entry.plan finish.entry.run result.0 }
    ensures end { IfSome result.1 (λ end. IsEndOf (finish_verdict finish.entry.plan finish.entry.run (drop (length finish.entry.run) result.0)) (state_at finish.entry.plan result.0) end.verdict (V.state end.server) end.sessions) }
    ensures over { IfSome result.1 (λ end. is_finished (stage_behind finish.entry.plan finish.entry.run (drop (length finish.entry.run) result.0)) ≡ true) }
    ensures items { room.new.items ≡ room.old.items }
    ensures capacity { length result.0 ≤ vec_capacity room.new }
{
    let mut finish = finish;
    let is_over = take_turns(&mut finish, room);
    let verdict = finish_verdict(alloc, &finish, is_over);
    let sessions = finish.sessions();
    let (server, journal) = finish.stop();
    (journal, end_with(verdict, server, sessions))
}

/// Whether a new tool may come behind a run that is over: the plan has `resume`, and the run hasn't ended.
fn may_resume<V: Serve>(run: &Run<'_, V>) -> bool
    ensures { result ≡ (run.now.plan.options.resume && not (has_ended run.now.plan run.now.journal)) }
{
    run.plan().options().resume && !run.ended()
}

/// The journal of a run to its end: where it is over and is resumed, with the new tool's turns behind it; and how it ended. It is
/// short where it isn't over, since there was no memory for a turn. The room for the list of turns grows with them.
fn resumed_run<V: Serve>(
    alloc: Global,
    run: Run<'_, V>,
    is_over: bool,
    room: &mut Vec<WorkerTurn>,
) -> (Journal, Option<End<V>>)
    requires read { WasRead run.plan }
    requires sound { IsSoundRun run.plan run.journal }
    requires over { is_over ≡ true → runs.is_over run.plan run.journal ≡ true }
    requires server { is_over ≡ true → run.server ≡ state_at run.plan run.journal }
    requires capacity { length run.journal ≤ vec_capacity room.old }
    ensures whole { IsWholeRun run.entry.plan run.entry.journal result.0 }
    ensures end { IfSome result.1 (λ end. IsEnd run.entry.plan result.0 end.verdict (V.state end.server) end.sessions) }
    ensures items { room.new.items ≡ room.old.items }
    ensures capacity { length result.0 ≤ vec_capacity room.new }
{
    finishes_may_call();
    finishes_are_sound();
    if !is_over {
        return short_run(run);
    }
    if !may_resume(&run) {
        return run_alone(alloc, run);
    }
    match Finish::open(alloc, run) {
        Ok(finish) => finished_run(alloc, finish, room),
        Err((run, FinishFault::NoCheckpoint)) => run_alone(alloc, run),
        Err((run, FinishFault::Memory)) => short_run(run),
    }
}

/// What a run leaves, and the new tool behind it where one comes. The turns that workers took are the first of the list.
#[tactic(auto, using(crate::proofs::ResumedRuns::whole_longer))]
pub fn whole_run<V: Serve>(
    alloc: Global,
    run: Run<'_, V>,
    is_over: bool,
    taken: Vec<WorkerTurn>,
) -> RunResult<V>
    requires read { WasRead run.plan }
    requires sound { IsSoundRun run.plan run.journal }
    requires over { is_over ≡ true → runs.is_over run.plan run.journal ≡ true }
    requires server { is_over ≡ true → run.server ≡ state_at run.plan run.journal }
    requires few { length taken.items ≤ length run.journal }
    requires capacity { length run.journal ≤ vec_capacity taken }
    ensures whole { IsWholeRun run.entry.plan run.entry.journal result.journal }
    ensures turns { result.turns ≡ taken.items ++ turns_of (drop (length taken.items) result.journal) }
    ensures end { IfSome result.end (λ end. IsEnd run.entry.plan result.journal end.verdict (V.state end.server) end.sessions) }
{
    let mut turns = taken;
    let (journal, end) = resumed_run(alloc, run, is_over, &mut turns);
    RunResult {
        turns: turns_in(turns, journal.as_slice()),
        journal,
        end,
    }
}

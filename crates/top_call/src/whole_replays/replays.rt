//! The replay of a plan.

ghost use Rattle.std.specs.Prelude.{◌≡◌, ◌≢◌, ◌≤◌, [], ◌∷◌, length, true, IfSome, IfOk};
ghost use Rattle.std.specs.Vec.{vec_capacity};
ghost use Rattle.tool_program.specs.JournalWords.Journals.{opening, state_at};
ghost use Rattle.proof_plans.specs.ReadPlans.Laws.{WasRead};
ghost use Rattle.run_turns.specs.Runs.{is_over};
ghost use Rattle.run_replay.specs.WholeReplay.Marks.{logged_at_mark};
ghost use Rattle.run_turns.specs.declared.run.Stepped.TheVariants as answers;
ghost use Rattle.top_call.specs.Outcomes.{turns_of};
ghost use Rattle.top_call.specs.ResumedRuns.{IsEnd, Resumes, run_in};
ghost use Rattle.top_call.specs.WholeReplays.Replays.{IsSoundReplay};

use crate::resumed_runs::{RunResult, whole_run};
use crate::whole_replays::laws::kept_runs_are_sound;
use base_values::{Duplicate, Names, Sequence};
use law_journals::plans::{read_options_allow, read_plans_are_runnable};
use law_journals::runs::accepted_runs_go_on;
use plan_data::Plan;
use run_replay::whole_replay::{ReplayOutcome, replay};
use run_turns::{FeedRun, Run, Stepped, WorkerTurn};
use server_api::Serve;
use std::alloc::{AllocError, Global};
use tool_program::replays::replays_agree;

/// What a replay leaves.
#[derive(Drop)]
pub struct Replay<V: Serve> {
    /// What its run leaves.
    pub run: RunResult<V>,
    /// How many events of the migrated table the log had when a turn of the run did the RENAME; none where none did.
    pub logged: Option<u64>,
}

/// The migrated table's name alone.
pub fn migrated_in(alloc: Global, plan: &Plan) -> Result<Names, AllocError>
    ensures { IfOk result (λ names. names ≡ plan.now.table ∷ []) }
{
    Ok(Sequence::from_vec(vec![in alloc; plan.table().copy()?]?))
}

/// The run of a plan that was read, whose turns are taken in their order until it is over. Where there is no memory for a turn, those
/// before it are left.
fn replayed_run<'a, V: Serve>(
    alloc: Global,
    plan: &'a Plan,
    server: V,
) -> Result<(Run<'a, V>, ReplayOutcome), AllocError>
    requires read { WasRead plan.now }
    requires server { V.state server ≡ opening plan.now }
    ensures plan { IfOk result (λ left. left.0.plan ≡ plan.now) }
    ensures replay { IfOk result (λ left. IsSoundReplay plan.now left.0.journal) }
    ensures logged { IfOk result (λ left. left.1.logged ≡ logged_at_mark plan.now (plan.now.table ∷ []) left.0.journal) }
    ensures over { IfOk result (λ left. left.1.stepped ≢ answers.NoMemory → is_over plan.now left.0.journal ≡ true) }
    ensures server { IfOk result (λ left. left.1.stepped ≢ answers.NoMemory → left.0.server ≡ state_at plan.now left.0.journal) }
{
    kept_runs_are_sound();
    accepted_runs_go_on();
    read_plans_are_runnable();
    read_options_allow();
    replays_agree();
    let migrated = migrated_in(alloc, plan)?;
    let opened = Run::open(alloc, plan, server)?;
    let mut feed = FeedRun::open(alloc, opened)?;
    let outcome = replay(&mut feed, &migrated);
    let run = feed.stop();
    // For the prover: `journal` says that each turn is in its actor's session.
    let _in_sessions = run.journal();
    Ok((run, outcome))
}

/// Whether a replay went on until its run was over: there was memory for each turn.
fn is_over(stepped: Stepped) -> bool
    ensures { result ≡ true → stepped ≢ answers.NoMemory }
{
    !matches!(stepped, Stepped::NoMemory)
}

/// Replays a plan that was read, on a server at its opening: its turns are taken in their order until the run is over, and where it
/// is resumed, those of a new tool behind it. Where there is no memory for a turn, those before it are left. There is room for the list
/// of turns, which grows with a new tool's.
pub fn replay_plan<V: Serve>(
    alloc: Global,
    plan: &Plan,
    server: V,
    room: Vec<WorkerTurn>,
) -> Result<Replay<V>, AllocError>
    requires read { WasRead plan.now }
    requires server { V.state server ≡ opening plan.now }
    requires empty { room.items ≡ [] }
    requires capacity { plan.now.options.turn_limit ≤ vec_capacity room }
    ensures replay { IfOk result (λ left. IsSoundReplay plan.now (run_in plan.now left.run.journal)) }
    ensures resumes { IfOk result (λ left. Resumes plan.now left.run.journal) }
    ensures turns { IfOk result (λ left. left.run.turns ≡ turns_of left.run.journal) }
    ensures logged { IfOk result (λ left. left.logged ≡ logged_at_mark plan.now (plan.now.table ∷ []) (run_in plan.now left.run.journal)) }
    ensures end { IfOk result (λ left. IfSome left.run.end (λ end. IsEnd plan.now left.run.journal end.verdict (V.state end.server) end.sessions)) }
{
    let (run, outcome) = replayed_run(alloc, plan, server)?;
    Ok(Replay {
        run: whole_run(alloc, run, is_over(outcome.stepped), room),
        logged: outcome.logged,
    })
}

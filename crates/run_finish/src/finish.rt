//! A run that is finished.

ghost use Rattle.std.specs.Prelude.{◌≡◌, ◌≤◌, [], ◌++◌, length, Ok, true, false, OnErr};
ghost use Rattle.tool_finish.specs.Callable.{IsFinishable};
ghost use Rattle.tool_finish.specs.Checkpoints.{has_checkpoint};
ghost use Rattle.tool_finish.specs.Finishes.{finish_verdict, IsFinish};
ghost use Rattle.tool_program.specs.JournalWords.Journals.{state_at, IsFaithful};
ghost use Rattle.tool_program.specs.JournalWords.Sessions.{KeepsSessions};
ghost use Rattle.tool_state.specs.Verdicts.{verdict_meant};
ghost use Rattle.proof_journals.specs.Run.Counts.{IsAfter};
ghost use Rattle.run_finish.specs.Sessions.{sessions_at};
ghost use Rattle.run_finish.specs.FinishRuns.{is_ended, Opens, TakesNext, IsUnmoved, StepsOn};

use crate::finish_state::FinishState;
use crate::opening::{begun, has_checkpoint, prepared};
use crate::sessions::LiveSession;
use plan_data::Plan;
use run_turns::{Run, RunParts, Stepped};
use server_api::Serve;
use server_model::{Entry, Journal};
use std::alloc::{AllocError, Global};
use std::marker::Model;
use tool_state::VerdictView;

/// Why a run can't be finished.
#[derive(Clone, Copy)]
pub enum FinishFault {
    /// It wrote no checkpoint, or its changelog doesn't exist any more.
    NoCheckpoint,
    /// There is no memory.
    Memory,
}

/// A run whose whole tool was lost, and a new tool that finishes it on the same server.
#[derive(Drop)]
pub struct Finish<'a, V: Serve> {
    alloc: Global,
    state: FinishState<'a>,
    server: V,
}

impl<'a, V: Serve> Model for Finish<'a, V> {
    ghost use Rattle.run_finish.specs.Sessions.{sessions_at};
    ghost use Rattle.run_finish.specs.FinishRuns.{FinishRun};
    ghost use Rattle.run_finish.specs.Invariants.{run_of, turns_in, IsFinishState};

    ghost Value = { FinishRun };

    ghost view = { λ f. record { plan = f.state.plan.now; run = run_of f.state; turns = turns_in f.state; server = V.state f.server } };

    ghost invariant = { λ f. IsFinishState f.state (V.state f.server) };
}

impl<'a, V: Serve> Finish<'a, V> {
    /// A new tool for a run that is at its last turn and hasn't ended. After a fault the run is as before.
    pub fn open(alloc: Global, run: Run<'a, V>) -> Result<Finish<'a, V>, (Run<'a, V>, FinishFault)>
        requires { has_checkpoint run.plan run.journal ≡ true → IsFinishable run.plan run.journal }
        ensures { Opens run.entry result }
    {
        let mut run = run;
        if !has_checkpoint(&run) {
            return Err((run, FinishFault::NoCheckpoint));
        }
        match prepared(alloc, &mut run) {
            Ok(sessions) => Ok(opened(alloc, run, sessions)),
            Err(_) => Err((run, FinishFault::Memory)),
        }
    }

    /// Whether the new tool is over.
    pub fn ended(&self) -> bool
        ensures { result ≡ is_ended self.now }
    {
        self.state.ended()
    }

    /// Takes the turn that comes next; `false` where there is none, since the new tool is over.
    fn advance(&mut self) -> Result<bool, AllocError>
        ensures took { result ≡ Ok true → TakesNext self.old self.new }
        ensures over { result ≡ Ok false → is_ended self.old ≡ true }
        ensures err { OnErr result (IsUnmoved self.old self.new) }
    {
        self.state.advance(self.alloc, &mut self.server)
    }

    /// Takes the turn that comes next: a session is lost, or the new tool calls. `NoMemory` leaves all as it was, but for a session
    /// that the server may have made for the turn and that is lost again; it comes too where the turn is to open a session and the
    /// server gave its last number. `Idle` never comes.
    pub fn step(&mut self) -> Stepped
        ensures { StepsOn self.old result self.new }
    {
        if self.ended() {
            return Stepped::Over;
        }
        match self.advance() {
            Ok(true) => Stepped::Took,
            Ok(false) => Stepped::Over,
            Err(_) => Stepped::NoMemory,
        }
    }

    /// How the new tool ended, and why, seen where it is; unfinished until it is over.
    pub fn verdict(&self) -> VerdictView<'_>
        ensures { verdict_meant result ≡ finish_verdict self.now.plan self.now.run self.now.turns }
    {
        self.state.verdict()
    }

    /// The plan, for as long as the run lasts.
    pub fn plan(&self) -> &Plan
        ensures { result.now ≡ self.now.plan }
    {
        self.state.plan
    }

    /// How many of the journal's turns are the run's.
    pub fn run_turns(&self) -> usize
        ensures { result ≡ length self.now.run }
    {
        self.state.run_turns
    }

    /// The run's turns and the new tool's behind them. The server's answers are in them; each of the new tool's is the one that came
    /// next, in its actor's session.
    pub fn journal(&self) -> &[Entry]
        ensures turns { result.now ≡ self.now.run ++ self.now.turns }
        ensures finish { IsFinish self.now.plan self.now.run self.now.turns }
        ensures faithful { IsFaithful self.now.plan (self.now.run ++ self.now.turns) }
        ensures sessions { KeepsSessions (self.now.run ++ self.now.turns) }
    {
        self.state.journal.as_slice()
    }

    /// The server, after the journal's turns.
    pub fn server(&self) -> &V
        ensures server { V.state result.now ≡ self.now.server }
        ensures following { IsAfter (state_at self.now.plan (self.now.run ++ self.now.turns)) self.now.server }
    {
        &self.server
    }

    /// How many sessions the server made at most.
    pub fn sessions(&self) -> u32
        ensures { self.now.server.made ≤ result }
    {
        self.state.made
    }

    /// The server and the journal.
    pub fn stop(self) -> (V, Journal)
        ensures server { V.state result.0 ≡ self.entry.server }
        ensures turns { result.1 ≡ self.entry.run ++ self.entry.turns }
        ensures following { IsAfter (state_at self.entry.plan (self.entry.run ++ self.entry.turns)) self.entry.server }
        ensures finish { IsFinish self.entry.plan self.entry.run self.entry.turns }
        ensures faithful { IsFaithful self.entry.plan (self.entry.run ++ self.entry.turns) }
        ensures sessions { KeepsSessions (self.entry.run ++ self.entry.turns) }
    {
        (self.server, Journal::from_vec(self.state.journal))
    }
}

/// The run with no turn of the new tool.
fn opened<'a, V: Serve>(alloc: Global, run: Run<'a, V>, sessions: Vec<LiveSession>) -> Finish<'a, V>
    requires finishable { IsFinishable run.plan run.journal }
    requires sessions { sessions.items ≡ sessions_at run.plan run.journal }
    ensures { result ≡ record { plan = run.entry.plan; run = run.entry.journal; turns = []; server = run.entry.server } }
{
    let RunParts {
        run_state,
        server,
        sessions: made,
    } = run.into_parts();
    Finish {
        alloc,
        state: begun(run_state, sessions, made),
        server,
    }
}

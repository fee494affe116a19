//! A run.

ghost use Rattle.std.specs.Prelude.{◌≡◌, ◌≤◌, ◌+◌, ◌<◌, ◌^◌, [], length, is_some, option_map, false, IfOk};
ghost use Rattle.std.specs.List.{list_any};
ghost use Rattle.tool_program.specs.JournalWords.Histories.{history, is_alter};
ghost use Rattle.tool_program.specs.JournalWords.Journals.{opening, state_at, IsFaithful};
ghost use Rattle.tool_program.specs.JournalWords.KeptPlans.{cut_due, KeepsPlan};
ghost use Rattle.tool_program.specs.JournalWords.Sessions.{live_session, KeepsSessions};
ghost use Rattle.tool_program.specs.Programs.{given, waits, Follows};
ghost use Rattle.tool_program.specs.Verdicts.{has_ended, verdict_of};
ghost use Rattle.tool_state.specs.Feeds.{feed_call};
ghost use Rattle.tool_state.specs.Verdicts.{verdict_meant};
ghost use Rattle.proof_journals.specs.Machine.Runnable.{IsRunnable};
ghost use Rattle.proof_journals.specs.Run.Counts.{IsAfter};
ghost use Rattle.run_state.specs.Books.{IsRunState};
ghost use Rattle.run_turns.specs.RunTurns.Invariants.{IsRun};
ghost use Rattle.run_turns.specs.Runs.{is_over, Steps};

use crate::due::{next_turn, turn_of};
use crate::renames::renames_of;
use crate::run_turns::take;
use base_script::Actor;
use plan_data::Plan;
use run_state::RunState;
use server_api::Serve;
use server_model::{Entry, Journal, Request};
use std::alloc::{AllocError, Global};
use std::marker::Model;
use tool_state::{FeedCall, VerdictView};

/// What became of a step.
#[derive(Clone, Copy)]
pub enum Stepped {
    /// A turn was taken: the journal has one entry more.
    Took,
    /// Nothing: nothing is given to the actor, and no loss is due.
    Idle,
    /// Nothing: the run has ended, or has as many turns as the plan allows.
    Over,
    /// There was no memory for the turn, and none was taken.
    NoMemory,
}

/// A run of a plan on a server: turns are taken one by one, and each of them is written into the journal.
#[derive(Drop)]
pub struct Run<'a, V: Serve> {
    alloc: Global,
    run_state: RunState<'a>,
    // For turns in which the RENAME is lost before it is done.
    renames: Vec<Request>,
    server: V,
    sessions: u32,
}

impl<'a, V: Serve> Model for Run<'a, V> {
    ghost use Rattle.run_turns.specs.InHand.{HasRenames};
    ghost use Rattle.run_turns.specs.RunTurns.Invariants.{IsRun};
    ghost use Rattle.run_turns.specs.Runs.{RunView};

    ghost Value = { RunView };

    ghost view = { λ r. record { plan = r.run_state.plan.now; journal = r.run_state.journal.items; server = V.state r.server } };

    ghost invariant = { λ r. IsRun r.run_state.plan.now r.run_state.journal.items r.run_state r.sessions (V.state r.server) × HasRenames r.run_state.plan.now r.run_state.journal.items r.renames.items };
}

/// A run taken apart.
#[derive(Drop)]
pub struct RunParts<'a, V: Serve> {
    /// The journal, with what is kept of it.
    pub run_state: RunState<'a>,
    /// The server after the journal's turns.
    pub server: V,
    /// How many sessions the server made at most.
    pub sessions: u32,
}

/// The journal of a run state.
fn into_journal(run_state: RunState<'_>) -> Journal
    ensures { result ≡ run_state.entry.journal.items }
{
    Journal::from_vec(run_state.journal)
}

impl<'a, V: Serve> Run<'a, V> {
    /// A run of the plan without turns, on a server at the plan's opening. The room for all its turns is made here.
    pub fn open(alloc: Global, plan: &'a Plan, server: V) -> Result<Run<'a, V>, AllocError>
        requires runs { IsRunnable plan.now }
        requires server { V.state server ≡ opening plan.now }
        ensures { IfOk result (λ run. run ≡ record { plan = plan.now; journal = []; server = opening plan.now }) }
    {
        let run_state = RunState::open(alloc, plan)?;
        let renames = renames_of(alloc, plan)?;
        Ok(Run {
            alloc,
            run_state,
            renames,
            server,
            sessions: 0,
        })
    }

    /// What the actor's next call is for a replica that lags; none where the actor isn't ready.
    #[tactic(auto, using(crate::proofs::Steps::after_moment))]
    pub fn feed_call(&self, actor: Actor) -> Option<FeedCall>
        ensures { result ≡ option_map (feed_call actor) (given self.now.plan self.now.journal actor) }
    {
        self.run_state.feed_call(&self.server, actor)
    }

    /// Whether the actor's request waits.
    #[tactic(auto, using(crate::proofs::Steps::waits_after))]
    pub fn waiting(&self, actor: Actor) -> bool
        ensures { result ≡ waits (state_at self.now.plan self.now.journal) (live_session self.now.journal actor) }
    {
        match self.run_state.session(actor) {
            Some(session) => self.server.waits(session),
            None => false,
        }
    }

    /// Whether the tool and every client are over.
    pub fn ended(&self) -> bool
        ensures { result ≡ has_ended self.now.plan self.now.journal }
    {
        self.run_state.has_ended()
    }

    /// Whether the RENAME of the migrated table was done.
    pub fn is_altered(&self) -> bool
        ensures { result ≡ list_any is_alter (history self.now.plan self.now.journal) }
    {
        self.run_state.is_altered
    }

    /// The plan, for as long as the run lasts.
    pub fn plan(&self) -> &Plan
        ensures { result.now ≡ self.now.plan }
    {
        self.run_state.plan
    }

    /// Whether a loss between calls is due in the next turn, which a step of any actor takes.
    pub fn is_cut_due(&self) -> bool
        ensures { result ≡ is_some (cut_due self.now.plan self.now.journal) }
    {
        self.run_state.cut_due().is_some()
    }

    /// Whether no further turn is taken: the run has ended, or has as many turns as the plan allows.
    #[tactic(auto, using(crate::proofs::Steps::few_more), unfolding(crate::specs::Runs::is_over))]
    pub fn is_over(&self) -> bool
        ensures over { result ≡ is_over self.now.plan self.now.journal }
        ensures few { result ≡ false → length self.now.journal + 1 < 2 ^ 32 }
    {
        self.ended()
            || self.run_state.plan.options().turn_limit as usize <= self.run_state.journal.len()
    }

    /// Takes the turn that is due where the actor is to take one: a loss between calls, whosever session it takes, or else
    /// the actor's turn with what is given to it. `NoMemory` leaves the run as it was, but for a session that the server may
    /// have made for the turn and that is lost again; it comes too where the turn is to open a session and the server gave its
    /// last number. It never comes of a free turn: a loss before a call or between calls, COMMIT, ROLLBACK, UNLOCK TABLES, and a
    /// poll for names of tables that stays blocked.
    #[tactic(auto, using(crate::proofs::Steps::after_moment, crate::proofs::Steps::none_due, crate::proofs::Steps::has_room, crate::proofs::RunTurns::Costs::turn_costs, crate::proofs::InHand::left_after, crate::proofs::InHand::left_still))]
    pub fn step(&mut self, actor: Actor) -> Stepped
        ensures { Steps self.old actor result self.new }
    {
        if self.is_over() {
            return Stepped::Over;
        }
        let Some(next) = next_turn(&self.run_state, &self.server, actor) else {
            return Stepped::Idle;
        };
        let Ok(turn) = turn_of(
            self.alloc,
            &self.run_state,
            &self.server,
            &mut self.renames,
            actor,
            next,
        ) else {
            return Stepped::NoMemory;
        };
        let Ok(()) = take(
            self.alloc,
            &mut self.server,
            &mut self.sessions,
            &mut self.run_state,
            turn,
        ) else {
            return Stepped::NoMemory;
        };
        Stepped::Took
    }

    /// How the migration ended, and why, seen in the run; unfinished until the run has ended.
    pub fn verdict(&self) -> VerdictView<'_>
        ensures { verdict_meant result ≡ verdict_of self.now.plan self.now.journal }
    {
        self.run_state.verdict()
    }

    /// The turns so far. The server's answers are in them; each is a turn that the plan allows and that was given, in its
    /// actor's session.
    pub fn journal(&self) -> &[Entry]
        ensures turns { result.now ≡ self.now.journal }
        ensures faithful { IsFaithful self.now.plan self.now.journal }
        ensures planned { KeepsPlan self.now.plan self.now.journal }
        ensures follows { Follows self.now.plan self.now.journal }
        ensures sessions { KeepsSessions self.now.journal }
        ensures bound { length self.now.journal ≤ self.now.plan.options.turn_limit }
    {
        self.run_state.journal.as_slice()
    }

    /// The server, after the journal's turns.
    pub fn server(&self) -> &V
        ensures server { V.state result.now ≡ self.now.server }
        ensures following { IsAfter (state_at self.now.plan self.now.journal) self.now.server }
    {
        &self.server
    }

    /// The journal, with what is kept of it.
    pub fn run_state(&self) -> &RunState<'a>
        ensures kept { IsRunState self.now.plan self.now.journal result.now }
        ensures plan { result.now.plan.now ≡ self.now.plan }
        ensures journal { result.now.journal.items ≡ self.now.journal }
    {
        &self.run_state
    }

    /// How many sessions the server made at most.
    pub fn sessions(&self) -> u32
        ensures { self.now.server.made ≤ result }
    {
        self.sessions
    }

    /// Makes room for so many turns more than the run has. Where there is no memory, the run is as before.
    pub fn reserve(&mut self, turns: usize) -> Result<(), AllocError>
        ensures { self.new ≡ self.old }
    {
        self.run_state.journal.reserve(turns)
    }

    /// The parts, for who goes on with them.
    pub fn into_parts(self) -> RunParts<'a, V>
        ensures run { IsRun self.entry.plan self.entry.journal result.run_state result.sessions (V.state result.server) }
        ensures plan { result.run_state.plan.now ≡ self.entry.plan }
        ensures journal { result.run_state.journal.items ≡ self.entry.journal }
        ensures server { V.state result.server ≡ self.entry.server }
    {
        RunParts {
            run_state: self.run_state,
            server: self.server,
            sessions: self.sessions,
        }
    }

    /// The server and the journal.
    pub fn stop(self) -> (V, Journal)
        ensures server { V.state result.0 ≡ self.entry.server }
        ensures turns { result.1 ≡ self.entry.journal }
        ensures following { IsAfter (state_at self.entry.plan self.entry.journal) self.entry.server }
        ensures faithful { IsFaithful self.entry.plan self.entry.journal }
        ensures planned { KeepsPlan self.entry.plan self.entry.journal }
        ensures follows { Follows self.entry.plan self.entry.journal }
        ensures bound { length self.entry.journal ≤ self.entry.plan.options.turn_limit }
    {
        (self.server, into_journal(self.run_state))
    }
}

//! A run whose turns workers take.

ghost use Rattle.std.specs.Prelude.{◌≡◌, ◌≢◌, ◌≤◌, ◌↔◌, ◌-◌, [], length, slice_get, Some, Ok, true, false, vec_capacity, IfOk};
ghost use Rattle.tool_program.specs.JournalWords.Journals.{opening, state_at};
ghost use Rattle.run_workers.specs.WorkerRun.Workers.{IsGoing};
ghost use Rattle.run_workers.specs.WorkerRun.WorkedRuns.{journal_of, listed, turns_of, WasOver, Works, IsWorkersRun};
ghost use Rattle.run_turns.specs.Runs.{is_over};

use crate::worker_run::choice::pick;
use crate::worker_run::members::Member;
use crate::worker_run::worker_turns::{note, place_from};
use plan_data::Plan;
use run_desk::SharedState;
use run_turns::{FeedRun, Run, Stepped, WorkerTurn};
use server_api::Serve;
use server_model::Entry;
use std::alloc::{AllocError, Global};
use std::marker::Model;

/// What a worked run begins with, for the turn queue's contracts alone. No value of it is made.
#[derive(Drop)]
pub struct Opening {
    /// The plan whose run it is.
    pub plan: Plan,
    /// How many workers there are.
    pub workers: u32,
}

/// A run whose turns workers take, each that of the actor that the rule gives its worker: its own next one in
/// rotation that may go, else the first one of others that may and doesn't wait, else the first one of others that waits.
#[derive(Drop)]
pub struct Worked<'a, V: Serve> {
    feed: FeedRun<'a, V>,
    workers: u32,
    turns: Vec<WorkerTurn>,
    places: Vec<usize>,
    is_short: bool,
}

impl<'a, V: Serve> Model for Worked<'a, V> {
    ghost use Rattle.std.specs.Prelude.{vec_len, vec_capacity};
    ghost use Rattle.run_workers.specs.WorkerRun.WorkedRuns.{WorkedView, listed, IsWorked};

    ghost Value = { WorkedView };

    ghost view = { λ worked. record { plan = worked.feed.run.plan; workers = worked.workers; list = listed worked.turns.items worked.feed.run.journal; is_short = worked.is_short } };

    ghost invariant = { λ worked. IsWorked worked.feed.run worked.workers worked.turns.items (vec_len worked.turns) (vec_capacity worked.turns) worked.places.items worked.is_short };
}

/// The entry of the last turn.
fn last_entry<'r, V: Serve>(feed: &'r FeedRun<'_, V>) -> &'r Entry
    requires { feed.now.run.journal ≢ [] }
    ensures { slice_get feed.now.run.journal (length feed.now.run.journal - 1) ≡ Some result.now }
{
    match feed.run().journal().last() {
        Some(entry) => entry,
        None => unreachable!(),
    }
}

impl<'a, V: Serve> Worked<'a, V> {
    /// A run without turns, on a server at the plan's opening, for `workers` workers. The memory for the turns' workers is
    /// taken here.
    pub fn open(
        alloc: Global,
        feed: FeedRun<'a, V>,
        workers: u32,
    ) -> Result<Worked<'a, V>, AllocError>
        requires some { 1 ≤ workers }
        requires going { IsGoing feed.run.plan }
        requires fresh { feed.run.journal ≡ [] }
        requires server { feed.run.server ≡ opening feed.run.plan }
        ensures { IfOk result (λ worked. worked ≡ record { plan = feed.entry.run.plan; workers = workers; list = []; is_short = false }) }
    {
        let limit = feed.run().plan().options().turn_limit;
        Ok(Worked {
            turns: Vec::with_capacity(alloc, limit as usize)?,
            // The place after all actors: so each worker's rotation begins with its first actor.
            places: vec![in alloc; feed.actor_count(); workers as usize]?,
            feed,
            workers,
            is_short: false,
        })
    }

    /// Takes one turn for this worker, unless the run is over: after the catch-up, where one is due, a loss between calls that is
    /// due, whosever session it takes, or else the turn of the actor that the rule gives the worker; and says whether it did. Once
    /// there was no memory for a turn, none is taken any more.
    pub fn take(&mut self, worker: u32) -> Result<bool, AllocError>
        ensures over { (result ≡ Ok false) ↔ WasOver self.old.plan (journal_of self.old.list) }
        ensures works { Works self.old worker result self.new }
    {
        if self.feed.run().is_over() {
            return Ok(false);
        }
        if self.is_short {
            return Err(AllocError);
        }
        let member = Member {
            workers: self.workers,
            worker,
        };
        let from = place_from(self.places.as_slice(), worker);
        self.feed.choose();
        let Some(candidate) = pick(&self.feed, member, from) else {
            unreachable!()
        };
        match self.feed.step(candidate.actor) {
            Stepped::Took => {
                let entry = last_entry(&self.feed);
                note(
                    &mut self.turns,
                    self.places.as_mut_slice(),
                    member,
                    candidate,
                    entry,
                );
                Ok(true)
            }
            Stepped::NoMemory => {
                // The server may have made a session for this turn that is lost again. Another turn would leave a number
                // out.
                self.is_short = true;
                Err(AllocError)
            }
            Stepped::Idle | Stepped::Over => unreachable!(),
        }
    }

    /// The run, and the worker of each of its turns.
    pub fn stop(self) -> (Run<'a, V>, Vec<WorkerTurn>)
        ensures plan { result.0.plan ≡ self.entry.plan }
        ensures journal { result.0.journal ≡ journal_of self.entry.list }
        ensures turns { result.1.items ≡ turns_of self.entry.list }
        ensures room { result.0.plan.options.turn_limit ≤ vec_capacity result.1 }
        ensures worked { IsWorkersRun self.entry.plan self.entry.workers self.entry.list }
        ensures list { listed result.1.items result.0.journal ≡ self.entry.list }
        ensures server { is_over result.0.plan result.0.journal ≡ true → result.0.server ≡ state_at result.0.plan result.0.journal }
    {
        (self.feed.stop(), self.turns)
    }
}

impl<'a, V: Serve> SharedState for Worked<'a, V> {
    type Opening = Opening;

    type Event = Entry;

    ghost use Rattle.run_workers.specs.WorkerRun.WorkedRuns.{journal_of, WasOver, stays_over};

    ghost opening = { λ worked. record { plan = worked.plan; workers = worked.workers } };

    ghost entries = { λ worked. worked.list };

    ghost is_over = { λ opening list. WasOver opening.plan (journal_of list) };

    #[tactic(auto, using(crate::proofs::WorkerRun::Working::works_opening, crate::proofs::WorkerRun::Working::works_took, crate::proofs::WorkerRun::Working::works_else))]
    fn take_turn(&mut self, worker: u32) -> Result<bool, AllocError> {
        self.take(worker)
    }

    ghost stays_over = { λ opening before after over. stays_over opening.plan before after over };
}

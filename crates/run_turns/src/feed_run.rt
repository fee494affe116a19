//! A run with a replica.

ghost use Rattle.std.specs.Prelude.{◌≡◌, ◌≤◌, ◌<◌, ◌&&◌, not, [], length, slice_get, is_some, Some, IfOk};
ghost use Rattle.tool_program.specs.Feeds.{is_held_back};
ghost use Rattle.tool_program.specs.JournalWords.KeptPlans.{cut_due};
ghost use Rattle.tool_program.specs.Orders.{actors, may_go};
ghost use Rattle.run_turns.specs.FeedRuns.{held_after_step, FeedSteps, IsCaughtUp};

use crate::actors::{actor_at, actor_count};
use crate::replica::Replica;
use crate::run::{Run, Stepped};
use base_script::Actor;
use server_api::Serve;
use std::alloc::{AllocError, Global};
use std::marker::Model;

/// A run whose log a replica hands on, where the plan has one. Before each turn `choose` makes the catch-up that may be due; then
/// `may_go` says who may go, and `step` takes the turn.
#[derive(Drop)]
pub struct FeedRun<'a, V: Serve> {
    run: Run<'a, V>,
    replica: Replica,
}

impl<'a, V: Serve> Model for FeedRun<'a, V> {
    ghost use Rattle.run_turns.specs.FeedRuns.{FeedView, IsFeedRun};

    ghost Value = { FeedView };

    ghost view = { λ feed. record { run = feed.run; held = feed.replica.held } };

    ghost invariant = { λ feed. IsFeedRun feed.run feed.replica };
}

impl<'a, V: Serve> FeedRun<'a, V> {
    /// A run without turns, whose replica holds nothing. The memory for the names that are looked for in the log is taken here.
    #[tactic(auto, using(crate::proofs::FeedRuns::begins))]
    pub fn open(alloc: Global, run: Run<'a, V>) -> Result<FeedRun<'a, V>, AllocError>
        requires fresh { run.journal ≡ [] }
        requires pause { 1 ≤ run.plan.options.replica_pause }
        ensures run { IfOk result (λ feed. feed.run ≡ run.entry) }
        ensures empty { IfOk result (λ feed. feed.held ≡ 0) }
    {
        let replica = Replica::new(alloc, run.plan())?;
        Ok(FeedRun { run, replica })
    }

    /// The run.
    pub fn run(&self) -> &Run<'a, V>
        ensures { result.now ≡ self.now.run }
    {
        &self.run
    }

    /// How many of the log's first events the replica holds now: after a turn that is what it holds before the catch-up.
    pub fn holds(&self) -> u64
        ensures { result ≡ self.now.held }
    {
        self.replica.held
    }

    /// How many actors the plan has.
    pub fn actor_count(&self) -> usize
        ensures { result ≡ length (actors self.now.run.plan) }
    {
        actor_count(&self.run)
    }

    /// The actor at a place of the fixed order, from 0.
    pub fn actor_at(&self, place: usize) -> Actor
        requires { place < length (actors self.now.run.plan) }
        ensures { slice_get (actors self.now.run.plan) place ≡ Some result }
    {
        actor_at(&self.run, place)
    }

    /// Makes the catch-up where one is due: then someone may go, where someone is ready. It comes before each choice of an actor and
    /// before each loss between calls, since who may go and what the replica holds after the turn are judged after it.
    #[tactic(auto, using(crate::proofs::FeedRuns::catches_up))]
    pub fn choose(&mut self)
        ensures run { self.new.run ≡ self.old.run }
        ensures held { IsCaughtUp self.new }
    {
        self.replica.catch_up(&self.run);
    }

    /// Whether the actor may go: it is ready, and the replica doesn't hold it back.
    #[tactic(auto, using(crate::proofs::FeedRuns::goes_as_held))]
    pub fn may_go(&self, actor: Actor) -> bool
        requires caught { IsCaughtUp self.now }
        ensures { result ≡ may_go self.now.run.plan self.now.run.journal actor }
    {
        self.replica.may_go(&self.run, actor)
    }

    /// Whether the replica holds the actor back from the next turn, which isn't a loss between calls.
    fn is_held_back(&self, actor: Actor) -> bool
        ensures { result ≡ (not (is_some (cut_due self.now.run.plan self.now.run.journal)) && is_held_back self.now.run.plan self.now.run.journal self.now.held actor) }
    {
        !self.run.is_cut_due() && self.replica.is_held_back(&self.run, actor)
    }

    /// Takes the turn that is due, as `Run::step` does: a loss between calls, or else the turn of this actor where it may go.
    #[tactic(auto, using(crate::proofs::FeedRuns::held_idles, crate::proofs::FeedRuns::steps_on, crate::proofs::FeedRuns::goes_on, crate::proofs::FeedRuns::stays, crate::proofs::FeedRuns::held_stays))]
    pub fn step(&mut self, actor: Actor) -> Stepped
        requires caught { IsCaughtUp self.old }
        ensures run { FeedSteps self.old.run actor result self.new.run }
        ensures held { self.new.held ≡ held_after_step result self.new.run self.old.held }
    {
        if self.run.is_over() {
            return Stepped::Over;
        }
        if self.is_held_back(actor) {
            return Stepped::Idle;
        }
        match self.run.step(actor) {
            Stepped::Took => {
                self.replica.rise(&self.run);
                Stepped::Took
            }
            stepped => stepped,
        }
    }

    /// The run, which goes on without the replica.
    pub fn stop(self) -> Run<'a, V>
        ensures { result ≡ self.entry.run }
    {
        self.run
    }
}

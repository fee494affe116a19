//! What a lagging replica holds of the log, and whom it holds back. Nothing here takes memory, but what it begins with.

ghost use Rattle.std.specs.Prelude.{◌≡◌, ◌≤◌, option_map, IfOk};
ghost use Rattle.base_script.specs.declared.actor.Actor.{Actor};
ghost use Rattle.tool_program.specs.Feeds.{events_between, holds_read, is_held_back, lags, read_tables};
ghost use Rattle.tool_program.specs.JournalWords.Journals.{state_at};
ghost use Rattle.tool_program.specs.Orders.{caught_up, is_caught, may_go_at, risen};
ghost use Rattle.tool_program.specs.Programs.{given};
ghost use Rattle.tool_state.specs.Feeds.{feed_call};
ghost use Rattle.run_turns.specs.Replicas.{IsReplicaOf};

use crate::actors::{actor_at, actor_count};
use crate::run::Run;
use base_script::Actor;
use base_values::{Duplicate, Names, Sequence};
use plan_data::Plan;
use server_api::Serve;
use std::alloc::{AllocError, Global};
use std::cmp::max;
use tool_state::FeedCall;

/// How much of the log a replica holds, and the tables whose events are counted in it.
#[derive(Drop)]
pub(crate) struct Replica {
    /// The tables whose events the applier reads.
    pub(crate) read: Names,
    /// The changelog alone: how many of its events the replica doesn't hold is the lag.
    pub(crate) log: Names,
    /// How many of the log's first events it holds.
    pub(crate) held: u64,
}

impl Replica {
    /// A replica that holds nothing.
    pub(crate) fn new(alloc: Global, plan: &Plan) -> Result<Replica, AllocError>
        ensures of { IfOk result (λ replica. IsReplicaOf plan.now replica) }
        ensures empty { IfOk result (λ replica. replica.held ≡ 0) }
    {
        let table = plan.migrated();
        Ok(Replica {
            read: Sequence::from_vec(vec![in alloc;
                table.name().copy()?,
                table.log_name().copy()?,
            ]?),
            log: Sequence::from_vec(vec![in alloc; table.log_name().copy()?]?),
            held: 0,
        })
    }

    /// Whether it lags: it lacks more events of the changelog than the plan allows where a chunk or an attempt begins.
    #[tactic(auto, using(crate::proofs::Replicas::lag_is))]
    fn lags<V: Serve>(&self, run: &Run<'_, V>) -> bool
        requires { IsReplicaOf run.now.plan self.now }
        ensures { result ≡ lags run.now.plan (state_at run.now.plan run.now.journal) self.now.held }
    {
        u64::from(run.plan().options().max_lag) < run.server().unread(self.held, &self.log)
    }

    /// How many events of the tables that the applier reads stand from a position to where the replica is.
    #[tactic(auto, using(crate::proofs::Replicas::fewer_left, crate::proofs::Replicas::difference_is))]
    fn events_from<V: Serve>(&self, run: &Run<'_, V>, position: u64) -> u64
        requires { IsReplicaOf run.now.plan self.now }
        ensures { result ≡ events_between (read_tables run.now.plan) position self.now.held (state_at run.now.plan run.now.journal).log }
    {
        let server = run.server();
        // The position may be ahead of the replica: the applier begins at the log's end.
        server.unread(position, &self.read) - server.unread(max(position, self.held), &self.read)
    }

    /// Whether a read of the log is held back: the replica holds neither all of the log nor a whole batch from the position on.
    #[tactic(auto, using(crate::proofs::Replicas::log_after))]
    fn holds_read<V: Serve>(&self, run: &Run<'_, V>, position: u64, limit: u32) -> bool
        requires { IsReplicaOf run.now.plan self.now }
        ensures { result ≡ holds_read run.now.plan (state_at run.now.plan run.now.journal) self.now.held position limit }
    {
        self.held != run.server().log_length() && self.events_from(run, position) < u64::from(limit)
    }

    /// Whether an actor's next call is held back; without a replica none is.
    #[tactic(auto, using(crate::proofs::Replicas::none_held, crate::proofs::Replicas::read_held, crate::proofs::Replicas::start_held, crate::proofs::Replicas::free_held, crate::proofs::Replicas::unasked_held))]
    fn holds<V: Serve>(&self, run: &Run<'_, V>, call: Option<FeedCall>) -> bool
        requires { IsReplicaOf run.now.plan self.now }
        ensures { (actor : Actor) → call ≡ option_map (feed_call actor) (given run.now.plan run.now.journal actor) → result ≡ is_held_back run.now.plan run.now.journal self.now.held actor }
    {
        if run.plan().options().replica_step == 0 {
            return false;
        }
        match call {
            Some(FeedCall::Read { position, limit }) => self.holds_read(run, position, limit),
            Some(FeedCall::Start) => self.lags(run),
            Some(FeedCall::Free) | None => false,
        }
    }

    /// Whether the actor is held back.
    #[tactic(auto, using(crate::proofs::Replicas::none_held))]
    pub(crate) fn is_held_back<V: Serve>(&self, run: &Run<'_, V>, actor: Actor) -> bool
        requires { IsReplicaOf run.now.plan self.now }
        ensures { result ≡ is_held_back run.now.plan run.now.journal self.now.held actor }
    {
        // Without a replica the actor doesn't have to be asked.
        if run.plan().options().replica_step == 0 {
            return false;
        }
        self.holds(run, run.feed_call(actor))
    }

    /// Whether the actor may go: it is ready, and isn't held back.
    #[tactic(auto, using(crate::proofs::Replicas::asks_ready))]
    pub(crate) fn may_go<V: Serve>(&self, run: &Run<'_, V>, actor: Actor) -> bool
        requires { IsReplicaOf run.now.plan self.now }
        ensures { result ≡ may_go_at run.now.plan run.now.journal self.now.held actor }
    {
        let call = run.feed_call(actor);
        call.is_some() && !self.holds(run, call)
    }

    /// Whether a catch-up is due: some actor is ready, and every ready actor is held back.
    #[tactic(auto, using(crate::proofs::Holding::nobody_goes, crate::proofs::Holding::none_caught))]
    fn is_caught<V: Serve>(&self, run: &Run<'_, V>) -> bool
        requires { IsReplicaOf run.now.plan self.now }
        ensures { result ≡ is_caught run.now.plan run.now.journal self.now.held }
    {
        // Without a replica nobody is held back, and no actor has to be asked.
        if run.plan().options().replica_step == 0 {
            return false;
        }
        let mut is_someone_ready = false;
        for place in 0..actor_count(run) {
            let call = run.feed_call(actor_at(run, place));
            if call.is_some() {
                if !self.holds(run, call) {
                    return false;
                }
                is_someone_ready = true;
            }
        }
        is_someone_ready
    }

    /// Catches up with the log where that is due.
    #[tactic(auto, using(crate::proofs::Replicas::log_after))]
    pub(crate) fn catch_up<V: Serve>(&mut self, run: &Run<'_, V>)
        requires { IsReplicaOf run.now.plan self.old }
        ensures of { IsReplicaOf run.now.plan self.new }
        ensures held { self.new.held ≡ caught_up run.now.plan run.now.journal self.old.held }
    {
        if self.is_caught(run) {
            self.held = run.server().log_length();
        }
    }

    /// After a turn: takes over the next events where its pause is over.
    #[tactic(auto, using(crate::proofs::Replicas::log_after))]
    pub(crate) fn rise<V: Serve>(&mut self, run: &Run<'_, V>)
        requires of { IsReplicaOf run.now.plan self.old }
        requires pause { 1 ≤ run.now.plan.options.replica_pause }
        ensures of { IsReplicaOf run.now.plan self.new }
        ensures held { self.new.held ≡ risen run.now.plan run.now.journal self.old.held }
    {
        let options = run.plan().options();
        if run.journal().len() % options.replica_pause as usize != 0 {
            return;
        }
        let end = run.server().log_length();
        let step = u64::from(options.replica_step);
        self.held = if self.held < end && step < end - self.held {
            self.held + step
        } else {
            end
        };
    }
}

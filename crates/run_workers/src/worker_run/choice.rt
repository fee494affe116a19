//! Whose turn a worker takes.

ghost use Rattle.std.specs.Prelude.{◌≡◌, ◌<◌, ◌+◌, ◌^◌, true, find, drop, slice_get, option_map, Option, Some, IfSome};
ghost use Rattle.base_script.specs.declared.actor.Actor.{Actor};
ghost use Rattle.proof_journals.specs.Run.Kept.{IsKept};
ghost use Rattle.tool_program.specs.Orders.{actors, may_go, owned, picked};
ghost use Rattle.run_turns.specs.FeedRuns.{IsCaughtUp};
ghost use Rattle.run_workers.specs.WorkerRun.Workers.{IsGoing, is_wanted, GoesOnFrom};

use crate::worker_run::members::{Candidate, Member};
use base_script::Actor;
use run_turns::FeedRun;
use server_api::Serve;

/// Whom a worker looks for.
#[derive(Clone, Copy)]
pub(crate) enum Wanted {
    /// An actor of its own that may go.
    Own,
    /// An actor of others that may go and doesn't wait.
    Idle,
    /// An actor of others that waits, which no replica holds back.
    Waiting,
}

/// Whether this actor is one that the worker looks for.
#[tactic(auto, using(crate::proofs::WorkerRun::Waiting::stayed_wanted, crate::proofs::WorkerRun::Waiting::own_wanted, crate::proofs::WorkerRun::Waiting::own_unidle, crate::proofs::WorkerRun::Waiting::own_unwaiting, crate::proofs::WorkerRun::Waiting::idle_wanted, crate::proofs::WorkerRun::Waiting::waiting_wanted))]
fn is_wanted<V: Serve>(
    feed: &FeedRun<'_, V>,
    member: Member,
    candidate: Candidate,
    wanted: Wanted,
) -> bool
    requires some { 0 < member.workers }
    requires going { IsGoing feed.now.run.plan }
    requires kept { IsKept feed.now.run.plan feed.now.run.journal }
    requires caught { IsCaughtUp feed.now }
    requires candidate { slice_get (actors feed.now.run.plan) candidate.place ≡ Some candidate.actor }
    ensures { result ≡ is_wanted wanted feed.now.run.plan feed.now.run.journal (owned feed.now.run.plan member.workers member.worker) candidate.actor }
{
    if !feed.may_go(candidate.actor) {
        return false;
    }
    let is_own = member.owns(candidate.place);
    match wanted {
        Wanted::Own => is_own,
        Wanted::Idle => !is_own && !feed.run().waiting(candidate.actor),
        Wanted::Waiting => !is_own && feed.run().waiting(candidate.actor),
    }
}

/// The first actor, from a place on, that the worker looks for.
#[tactic(auto, using(crate::proofs::WorkerRun::FirstWanted::found_here, crate::proofs::WorkerRun::FirstWanted::found_later, crate::proofs::WorkerRun::FirstWanted::found_none, crate::proofs::WorkerRun::Waiting::wanted_goes))]
fn next_candidate<V: Serve>(
    feed: &FeedRun<'_, V>,
    member: Member,
    wanted: Wanted,
    from: usize,
) -> Option<Candidate>
    requires some { 0 < member.workers }
    requires going { IsGoing feed.now.run.plan }
    requires kept { IsKept feed.now.run.plan feed.now.run.journal }
    requires caught { IsCaughtUp feed.now }
    ensures first { option_map (λ candidate. candidate.actor) result ≡ find (is_wanted wanted feed.now.run.plan feed.now.run.journal (owned feed.now.run.plan member.workers member.worker)) (drop from (actors feed.now.run.plan)) }
    ensures candidate { IfSome result (λ candidate. slice_get (actors feed.now.run.plan) candidate.place ≡ Some candidate.actor) }
    ensures goes { IfSome result (λ candidate. may_go feed.now.run.plan feed.now.run.journal candidate.actor ≡ true) }
    ensures next { IfSome result (λ candidate. candidate.place + 1 < 2 ^ 64) }
{
    for place in from..feed.actor_count() {
        let actor = feed.actor_at(place);
        let candidate = Candidate { place, actor };
        if is_wanted(feed, member, candidate, wanted) {
            return Some(candidate);
        }
    }
    None
}

/// Whose turn the worker takes, where its rotation goes on from this place: its next actor that may go, else the first one of
/// others that may and doesn't wait, else the first one of others that waits.
#[tactic(auto, using(crate::proofs::WorkerRun::Picking::by_first, crate::proofs::WorkerRun::Picking::by_second, crate::proofs::WorkerRun::Picking::by_third, crate::proofs::WorkerRun::Picking::by_last))]
pub(crate) fn pick<V: Serve>(
    feed: &FeedRun<'_, V>,
    member: Member,
    from: usize,
) -> Option<Candidate>
    requires some { 0 < member.workers }
    requires going { IsGoing feed.now.run.plan }
    requires kept { IsKept feed.now.run.plan feed.now.run.journal }
    requires caught { IsCaughtUp feed.now }
    ensures picked { (last : Option Actor) → GoesOnFrom feed.now.run.plan member.workers member.worker from last → option_map (λ candidate. candidate.actor) result ≡ picked feed.now.run.plan feed.now.run.journal (owned feed.now.run.plan member.workers member.worker) last }
    ensures candidate { IfSome result (λ candidate. slice_get (actors feed.now.run.plan) candidate.place ≡ Some candidate.actor) }
    ensures goes { IfSome result (λ candidate. may_go feed.now.run.plan feed.now.run.journal candidate.actor ≡ true) }
    ensures next { IfSome result (λ candidate. candidate.place + 1 < 2 ^ 64) }
{
    if let Some(candidate) = next_candidate(feed, member, Wanted::Own, from) {
        return Some(candidate);
    }
    if let Some(candidate) = next_candidate(feed, member, Wanted::Own, 0) {
        return Some(candidate);
    }
    if let Some(candidate) = next_candidate(feed, member, Wanted::Idle, 0) {
        return Some(candidate);
    }
    next_candidate(feed, member, Wanted::Waiting, 0)
}

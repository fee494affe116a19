//! The plan's words that are left.

ghost use Rattle.std.specs.Prelude.{◌≡◌, ◌<◌, ◌&&◌, nat_lt, length, slice_get, Some, option_map};
ghost use Rattle.tool_program.specs.Orders.{may_go, first_ready};
ghost use Rattle.run_turns.specs.FeedRuns.{IsCaughtUp};
ghost use Rattle.run_replay.specs.WholeReplay.Places.{queue_of, choice_of, by_word};

use crate::whole_replay::place::{NextTurn, OrderPlace};
use plan_data::ActorRun;
use run_turns::FeedRun;
use server_api::Serve;

/// How many runs of words the plan has.
pub(crate) fn run_count<V: Serve>(feed: &FeedRun<'_, V>) -> usize
    ensures { result ≡ length feed.now.run.plan.turns }
{
    feed.run().plan().turns().len()
}

/// The plan's run of words at a place.
fn words_at<V: Serve>(feed: &FeedRun<'_, V>, place: usize) -> ActorRun
    requires { place < length feed.now.run.plan.turns }
    ensures { slice_get feed.now.run.plan.turns place ≡ Some result }
{
    feed.run().plan().turns().as_slice()[place]
}

/// Whether a word of these is left, after `used`, and its actor may go.
fn is_next<V: Serve>(feed: &FeedRun<'_, V>, words: ActorRun, used: u32) -> bool
    requires { IsCaughtUp feed.now }
    ensures { result ≡ (nat_lt used words.times && may_go feed.now.run.plan feed.now.run.journal words.actor) }
{
    used < words.times && feed.may_go(words.actor)
}

/// The actor of the first word that is left whose actor may go; none where there is none.
#[tactic(auto, using(crate::proofs::WholeReplay::WordChoices::by_taken, crate::proofs::WholeReplay::WordChoices::run_passed, crate::proofs::WholeReplay::WordChoices::by_spent))]
pub(crate) fn next_word<V: Serve>(feed: &FeedRun<'_, V>, place: OrderPlace) -> Option<NextTurn>
    requires { IsCaughtUp feed.now }
    ensures { option_map (choice_of feed.now.run.plan) result ≡ by_word (queue_of feed.now.run.plan place).round (first_ready (may_go feed.now.run.plan feed.now.run.journal) (queue_of feed.now.run.plan place).words) }
{
    let mut used = place.used;
    for index in place.run..run_count(feed) {
        let words = words_at(feed, index);
        if is_next(feed, words, used) {
            return Some(NextTurn {
                actor: words.actor,
                following: OrderPlace {
                    run: index,
                    used: used + 1,
                    actor: place.actor,
                },
            });
        }
        used = 0;
    }
    None
}

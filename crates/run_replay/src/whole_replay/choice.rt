//! Whose turn comes next.

ghost use Rattle.std.specs.Prelude.{◌≡◌, option_map};
ghost use Rattle.tool_program.specs.Orders.{chosen};
ghost use Rattle.run_turns.specs.FeedRuns.{IsCaughtUp};
ghost use Rattle.run_replay.specs.WholeReplay.Places.{queue_of, choice_of};

use crate::whole_replay::passes::next_in_pass;
use crate::whole_replay::place::{NextTurn, OrderPlace};
use crate::whole_replay::words::next_word;
use run_turns::FeedRun;
use server_api::Serve;

/// The actor whose turn comes next: that of the first word whose actor may go; else the first one of the pass that may, else of
/// the next pass.
#[tactic(auto, using(crate::proofs::WholeReplay::Choices::by_words, crate::proofs::WholeReplay::Choices::by_round, crate::proofs::WholeReplay::Choices::by_pass))]
pub(crate) fn next_turn<V: Serve>(feed: &FeedRun<'_, V>, place: OrderPlace) -> Option<NextTurn>
    requires { IsCaughtUp feed.now }
    ensures { option_map (choice_of feed.now.run.plan) result ≡ chosen feed.now.run.plan feed.now.run.journal (queue_of feed.now.run.plan place) }
{
    if let Some(next) = next_word(feed, place) {
        return Some(next);
    }
    if let Some(next) = next_in_pass(feed, place.actor) {
        return Some(next);
    }
    next_in_pass(feed, 0)
}

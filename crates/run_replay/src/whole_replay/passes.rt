//! Passes through the actors in their fixed order.

ghost use Rattle.std.specs.Prelude.{◌≡◌, drop, option_map};
ghost use Rattle.tool_program.specs.Orders.{actors, may_go, first_ready, from_pass};
ghost use Rattle.run_turns.specs.FeedRuns.{IsCaughtUp};
ghost use Rattle.run_replay.specs.WholeReplay.Places.{choice_of};

use crate::whole_replay::place::{NextTurn, OrderPlace};
use crate::whole_replay::words::run_count;
use run_turns::FeedRun;
use server_api::Serve;

/// The first actor of the pass that may go, from this place on; after its turn no word of the plan's is left.
#[tactic(auto, using(crate::proofs::WholeReplay::PassChoices::by_taken, crate::proofs::WholeReplay::PassChoices::actor_passed, crate::proofs::WholeReplay::PassChoices::by_spent))]
pub(crate) fn next_in_pass<V: Serve>(feed: &FeedRun<'_, V>, from: usize) -> Option<NextTurn>
    requires { IsCaughtUp feed.now }
    ensures { option_map (choice_of feed.now.run.plan) result ≡ from_pass (first_ready (may_go feed.now.run.plan feed.now.run.journal) (drop from (actors feed.now.run.plan))) }
{
    let words = run_count(feed);
    for place in from..feed.actor_count() {
        let actor = feed.actor_at(place);
        if feed.may_go(actor) {
            return Some(NextTurn {
                actor,
                following: OrderPlace {
                    run: words,
                    used: 0,
                    actor: place + 1,
                },
            });
        }
    }
    None
}

//! The turns of a replay.

ghost use Rattle.std.specs.Prelude.{◌≡◌, ◌≢◌, None, true};
ghost use Rattle.tool_program.specs.JournalWords.Journals.{state_at};
ghost use Rattle.tool_program.specs.JournalWords.KeptPlans.{cut_due};
ghost use Rattle.tool_program.specs.Orders.{next_actor, IsReplay};
ghost use Rattle.run_turns.specs.Runs.{is_over, Stops};
ghost use Rattle.run_turns.specs.declared.run.Stepped.TheVariants as stepped;
ghost use Rattle.run_replay.specs.WholeReplay.Marks.{counted, logged_at_mark};
ghost use Rattle.run_replay.specs.WholeReplay.Replays.{IsFresh, IsReplaying, Passes, IsStalled};

use crate::whole_replay::choice::next_turn;
use crate::whole_replay::place::OrderPlace;
use base_script::Actor;
use base_values::Names;
use run_turns::{FeedRun, Run, Stepped};
use server_api::Serve;

/// How a replay went.
#[derive(Clone, Copy)]
pub struct ReplayOutcome {
    /// What its last step answered: `Over`, or `Idle` where nobody may go and no loss between calls is due, or `NoMemory`. It's never
    /// `Took`.
    pub stepped: Stepped,
    /// How many events of the tables that were asked for the log had when the RENAME was done; none where it wasn't.
    pub logged: Option<u64>,
}

impl ReplayOutcome {
    /// A replay that went so.
    fn new(stepped: Stepped, logged: Option<u64>) -> ReplayOutcome
        ensures { result ≡ record { stepped = stepped; logged = logged } }
    {
        ReplayOutcome { stepped, logged }
    }
}

/// Takes the turn that comes next, after the catch-up that may be due: a loss between calls where one is due, which uses up no word
/// and no place; else the next actor's.
#[tactic(auto, using(crate::proofs::WholeReplay::Passing::pass_cut, crate::proofs::WholeReplay::Passing::pass_turn, crate::proofs::WholeReplay::Passing::pass_stalls))]
fn pass<V: Serve>(feed: &mut FeedRun<'_, V>, place: &mut OrderPlace) -> Stepped
    requires { IsReplaying feed.old.run place.old }
    ensures { Passes feed.old.run result feed.new.run place.new }
{
    if feed.run().is_over() {
        return Stepped::Over;
    }
    feed.choose();
    if feed.run().is_cut_due() {
        return feed.step(Actor::Op);
    }
    let Some(next) = next_turn(feed, *place) else {
        return Stepped::Idle;
    };
    match feed.step(next.actor) {
        Stepped::Took => {
            *place = next.following;
            Stepped::Took
        }
        Stepped::Idle => Stepped::Idle,
        Stepped::Over => Stepped::Over,
        Stepped::NoMemory => Stepped::NoMemory,
    }
}

/// How many events of these tables the log has when the RENAME is done: counted after the turn that did it.
fn counted<V: Serve>(run: &Run<'_, V>, tables: &Names, logged: Option<u64>) -> Option<u64>
    ensures { result ≡ counted run.now.plan run.now.journal run.now.server tables.now logged }
{
    match logged {
        Some(count) => Some(count),
        None if run.is_altered() => Some(run.server().unread(0, tables)),
        None => None,
    }
}

/// Takes the turns of the plan's replay until its run is over, or nobody may go, and counts the events of these tables at the
/// RENAME. Where there is no memory for a turn, those before it stay.
#[tactic(auto, using(crate::proofs::WholeReplay::GoingOn::begins, crate::proofs::WholeReplay::GoingOn::is_replay, crate::proofs::WholeReplay::GoingOn::still_replay, crate::proofs::WholeReplay::GoingOn::it_stops, crate::proofs::WholeReplay::GoingOn::still_stops, crate::proofs::WholeReplay::Marking::goes_on_counted, crate::proofs::WholeReplay::Marking::still_counted))]
pub fn replay<V: Serve>(feed: &mut FeedRun<'_, V>, tables: &Names) -> ReplayOutcome
    requires { IsFresh feed.old.run }
    ensures plan { feed.new.run.plan ≡ feed.old.run.plan }
    ensures replay { IsReplay feed.new.run.plan feed.new.run.journal }
    ensures stops { Stops feed.new.run.plan feed.new.run.journal }
    ensures stopped { result.stepped ≢ stepped.Took }
    ensures over { result.stepped ≡ stepped.Over → is_over feed.new.run.plan feed.new.run.journal ≡ true }
    ensures stalled { result.stepped ≡ stepped.Idle → IsStalled feed.new.run.plan feed.new.run.journal }
    ensures server { result.stepped ≢ stepped.NoMemory → feed.new.run.server ≡ state_at feed.new.run.plan feed.new.run.journal }
    ensures logged { result.logged ≡ logged_at_mark feed.new.run.plan tables.now feed.new.run.journal }
{
    let mut logged = None;
    let mut place = OrderPlace {
        run: 0,
        used: 0,
        actor: feed.actor_count(),
    };
    let limit = feed.run().plan().options().turn_limit;
    for _turn in 0..limit {
        match pass(feed, &mut place) {
            Stepped::Took => logged = counted(feed.run(), tables, logged),
            Stepped::Over => return ReplayOutcome::new(Stepped::Over, logged),
            Stepped::Idle => return ReplayOutcome::new(Stepped::Idle, logged),
            Stepped::NoMemory => return ReplayOutcome::new(Stepped::NoMemory, logged),
        }
    }
    ReplayOutcome::new(Stepped::Over, logged)
}

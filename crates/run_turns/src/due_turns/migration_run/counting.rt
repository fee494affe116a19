//! What one session adds to the counts that a run keeps of the server. Nothing here takes memory.

ghost use Rattle.std.specs.Prelude.{◌≡◌, ◌+◌, ◌<◌, ◌≤◌, ◌^◌, true, false, not, Some, None};
ghost use Rattle.server_model.specs.Entries.{is_client};
ghost use Rattle.server_model.specs.States.{session_of, has_work};
ghost use Rattle.proof_journals.specs.Run.Counts.{is_open, is_busy, weight, weigh, kind_of};
ghost use Rattle.run_turns.specs.DueTurns.MigrationRun.ServerTurns.{is_lost_in};

use crate::due_turns::migration_run::turn::Turn;
use base_script::Actor;
use run_actors::is_client;
use server_api::Serve;

/// What a run counts of its server.
#[derive(Clone, Copy)]
pub struct Counts {
    /// How many transactions of clients are open.
    pub load: u64,
    /// How many sessions of the tool's wait or are in a transaction.
    pub busy: u64,
}

/// What one session adds to the counts.
#[derive(Clone, Copy)]
pub(crate) struct Share {
    /// Whether a client's transaction is open in it.
    pub(crate) open: bool,
    /// Whether it is the tool's, and waits or is in a transaction.
    pub(crate) busy: bool,
}

/// Whether a client's transaction is open in the actor's session.
#[tactic(auto, using(crate::proofs::DueTurns::MigrationRun::Weights::opens))]
pub fn is_open<V: Serve>(server: &V, actor: Actor, session: u32) -> bool
    requires { kind_of session (V.state server.now).sessions ≡ Some (not (is_client actor)) }
    ensures { weight result ≡ weigh is_open (session_of session (V.state server.now).sessions) }
{
    is_client(actor) && server.in_transaction(session)
}

/// Whether a session of the tool's, which is the actor's, waits or is in a transaction.
#[tactic(auto, using(crate::proofs::DueTurns::MigrationRun::Weights::busies))]
pub fn is_busy<V: Serve>(server: &V, actor: Actor, session: u32) -> bool
    requires { kind_of session (V.state server.now).sessions ≡ Some (not (is_client actor)) }
    ensures { weight result ≡ weigh (is_busy (V.state server.now).waiting) (session_of session (V.state server.now).sessions) }
{
    let is_tool = !is_client(actor);
    let works = server.in_transaction(session);
    let waits = server.waits(session);
    is_tool && (works || waits)
}

/// Whether the session is in a transaction, holds a table lock or waits.
pub fn has_work<V: Serve>(server: &V, session: u32) -> bool
    ensures { result ≡ has_work (V.state server.now) session }
{
    server.in_transaction(session) || server.locked(session) || server.waits(session)
}

/// A count after a turn of a session that was counted before or wasn't, and is counted now or isn't.
pub fn recount(count: u64, before: bool, after: bool) -> u64
    requires before { weight before ≤ count }
    requires after { count + 1 < 2 ^ 64 }
    ensures { result + weight before ≡ count + weight after }
{
    match (before, after) {
        (false, true) => count + 1,
        (true, false) => count - 1,
        _ => count,
    }
}

/// What a live session, which is the actor's, adds to the counts.
pub(crate) fn share_of<V: Serve>(server: &V, actor: Actor, session: u32) -> Share
    requires { kind_of session (V.state server.now).sessions ≡ Some (not (is_client actor)) }
    ensures open { weight result.open ≡ weigh is_open (session_of session (V.state server.now).sessions) }
    ensures busy { weight result.busy ≡ weigh (is_busy (V.state server.now).waiting) (session_of session (V.state server.now).sessions) }
{
    Share {
        open: is_open(server, actor, session),
        busy: is_busy(server, actor, session),
    }
}

/// What the session of a turn adds to the counts after it: nothing where it was lost in the turn.
pub(crate) fn share_after<V: Serve>(server: &V, turn: &Turn, session: u32) -> Share
    requires lost { is_lost_in turn.now.side turn.now.asked ≡ true → session_of session (V.state server.now).sessions ≡ None }
    requires left { is_lost_in turn.now.side turn.now.asked ≡ false → kind_of session (V.state server.now).sessions ≡ Some (not (is_client turn.now.actor)) }
    ensures open { weight result.open ≡ weigh is_open (session_of session (V.state server.now).sessions) }
    ensures busy { weight result.busy ≡ weigh (is_busy (V.state server.now).waiting) (session_of session (V.state server.now).sessions) }
{
    if turn.is_lost() {
        Share {
            open: false,
            busy: false,
        }
    } else {
        share_of(server, turn.actor, session)
    }
}

impl Counts {
    /// The counts after a turn of a session that added this before it and adds that now.
    pub(crate) fn following(self, before: Share, after: Share) -> Counts
        requires open { weight before.open ≤ self.load }
        requires busy { weight before.busy ≤ self.busy }
        requires loads { self.load + 1 < 2 ^ 64 }
        requires sessions { self.busy + 1 < 2 ^ 64 }
        ensures load { result.load + weight before.open ≡ self.load + weight after.open }
        ensures busy { result.busy + weight before.busy ≡ self.busy + weight after.busy }
    {
        Counts {
            load: recount(self.load, before.open, after.open),
            busy: recount(self.busy, before.busy, after.busy),
        }
    }
}

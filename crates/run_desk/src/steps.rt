//! The steps of a turn, each at one word of the board.
ghost use Rattle.std.specs.Prelude.{◌≡◌, ◌≢◌, ℕ, List, ◌%◌, ◌^◌, [], ◌∷◌, ◌++◌, Some, Ok, true, false};
ghost use Rattle.run_desk.specs.declared.shared_state.Entry.{Entry};
ghost use Rattle.run_desk.specs.declared.hand.Stage.TheVariants.{Rests, Waits, Holds};
ghost use Rattle.run_desk.specs.Boards.{IsAt, IsWorkerAt, IsSameSeat, HoldsSharedState, HoldsMore, HoldsAll, Ends};
ghost use Rattle.run_desk.specs.Steps.{Comes, held_entries};
ghost use Rattle.run_desk.specs.Views.{staged, recorded};

use crate::plays::{Count, Draw, Look, Serve};
use crate::rule::{Board, COUNT, Place, SERVING, SHARED_STATE, TICKET};
use crate::shared_state::SharedState;
use std::alloc::AllocError;
use std::sync::Wait;
use std::thread;

// Looks at the number that is served before a worker sleeps.
const LOOKS: u32 = 64;

/// Draws a ticket.
pub(crate) fn draw<B: SharedState>(board: &Board<B>, seat: &mut Place<B>) -> u64
    requires board { IsAt board.now.table_id seat.old }
    requires rests { IsWorkerAt seat.old.me.0 Rests × (seat.old.me.1 ≡ []) }
    ensures seat { IsSameSeat seat.old seat.new }
    ensures ticket { (ticket : ℕ) × (result ≡ ticket % 2 ^ 64) × (seat.new.me ≡ (staged (Waits ticket) seat.old.me.0, [])) }
{
    board.fetch_add::<Draw>(seat, TICKET, 1)
}

/// Looks at the number that is served, until it is this ticket. After some looks it sleeps until the number changes.
pub(crate) fn wait<B: SharedState, R: Wait>(
    rt: &R,
    board: &Board<B>,
    seat: &mut Place<B>,
    ticket: u64,
)
    requires board { IsAt board.now.table_id seat.old }
    requires waits { ((t : ℕ) × (ticket ≡ t % 2 ^ 64) × IsWorkerAt seat.old.me.0 (Waits t)) × (seat.old.me.1 ≡ []) }
    ensures seat { IsSameSeat seat.old seat.new }
    ensures comes { Comes B.opening B.entries seat.old.me seat.new.me }
{
    let mut looks = 0;
    for _ in rt.forever() {
        let serving = board.load::<Look<B>>(seat, SERVING);
        if serving == ticket {
            return;
        }
        if looks < LOOKS {
            looks += 1;
            thread::yield_now();
        } else {
            // Who serves the next number wakes all sleepers, and the one with that ticket goes on.
            board.park(rt, SERVING, (serving & 0xffff_ffff) as u32);
        }
    }
    unreachable!()
}

/// Counts the entry that the shared state has more than the seat has seen.
pub(crate) fn count<B: SharedState>(board: &Board<B>, seat: &mut Place<B>)
    requires board { IsAt board.now.table_id seat.old }
    requires holds { HoldsMore B.opening B.entries seat.old.me }
    ensures seat { IsSameSeat seat.old seat.new }
    ensures entry { (seat.new.me.1 ≡ seat.old.me.1) × (seat.new.me.0 ≡ recorded (held_entries B.entries seat.old.me.1) seat.old.me.0) }
{
    board.fetch_add::<Count<B>>(seat, COUNT, 1);
}

/// Gives the shared state back to the slot and the turn on to the next ticket.
pub(crate) fn serve<B: SharedState>(board: &Board<B>, seat: &mut Place<B>)
    requires board { IsAt board.now.table_id seat.old }
    requires holds { HoldsAll B.opening B.entries seat.old.me }
    ensures seat { IsSameSeat seat.old seat.new }
    ensures rests { seat.new.me ≡ (staged Rests seat.old.me.0, []) }
{
    board.fetch_add::<Serve>(seat, SERVING, 1);
    board.wake_all(SERVING);
}

/// Whether a turn was taken.
fn was_taken(taken: Result<bool, AllocError>) -> bool
    ensures took { result ≡ true → taken ≡ Ok true }
    ensures others { result ≡ false → taken ≢ Ok true }
{
    matches!(taken, Ok(true))
}

/// Takes a turn at the shared state, counts its entry where it was taken, and gives the turn on.
pub(crate) fn take<B: SharedState>(
    board: &Board<B>,
    seat: &mut Place<B>,
    worker: u32,
) -> Result<bool, AllocError>
    requires board { IsAt board.now.table_id seat.old }
    requires holds { (opening : B.Opening) × (entries : List (Entry B.Event)) × (own : List (Entry B.Event)) × HoldsSharedState B.opening B.entries opening entries worker own entries seat.old.me }
    ensures seat { IsSameSeat seat.old seat.new }
    ensures taken { (opening : B.Opening) (entries own : List (Entry B.Event)) → HoldsSharedState B.opening B.entries opening entries worker own entries seat.old.me → Ends B.is_over opening entries worker own result seat.new.me }
{
    let Some(mut shared_state) = board.exchange(seat, SHARED_STATE, None) else {
        unreachable!()
    };
    let taken = shared_state.take_turn(worker);
    // The state goes back before its entry is counted. Both come while the worker holds the turn; so the count, which fixes
    // the turn's place in the list, can be told which entry it counts.
    match board.exchange(seat, SHARED_STATE, Some(shared_state)) {
        None => {}
        Some(_) => unreachable!(),
    }
    if was_taken(taken) {
        count(board, seat);
    }
    serve(board, seat);
    taken
}

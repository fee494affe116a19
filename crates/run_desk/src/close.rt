//! How the shared state of a turn queue comes back.
ghost use Rattle.std.specs.Prelude.{◌≡◌, ◌<◌, [], ◌∷◌, ◌++◌, length, map, All, Some};
ghost use Rattle.std.specs.Mem.Slots.{slots_items, slots_len, IsFull};
ghost use Rattle.run_desk.specs.Turns.{IsOurs};
ghost use Rattle.run_desk.specs.Views.{hand_of};

use crate::pass::Passes;
use crate::plays::Gather;
use crate::rule::{Board, Place, SHARED_STATE};
use crate::shared_state::SharedState;
use atomic_table::Closed;
use std::alloc::Global;

/// One seat with the hands of all passes.
pub(crate) fn gather<B: SharedState>(board: &Board<B>, mut passes: Passes<B>) -> Place<B>
    requires some { 0 < length passes.items }
    requires words { board.now.table_id.words ≡ 3 }
    requires passes { All (IsOurs board.now.table_id (B.opening board.now.key.shared_state.value)) passes.items }
    ensures table { result.table_id ≡ board.now.table_id }
    ensures hands { result.me ≡ (map (hand_of (B.opening board.now.key.shared_state.value)) passes.items, []) }
{
    let Some(last) = passes.pop() else {
        unreachable!()
    };
    let mut seat = last.seat;
    while let Some(pass) = passes.pop() {
        // With the seats of all passes in one no other seat can hold the turn: so the state is in its slot.
        board.join_seat::<Gather>(&mut seat, pass.seat);
    }
    seat
}

/// The shared state in the slot.
pub(crate) fn taken_out<B: SharedState>(mut closed: Closed<Option<B>, Global>) -> B
    requires slots { (slots_len closed.slots ≡ 1) × IsFull closed.slots × IsFull closed.words }
    requires shared_state { (shared_state : B) × (slots_items closed.slots ≡ Some shared_state ∷ []) }
    ensures { slots_items closed.slots ≡ Some result ∷ [] }
{
    let Some(shared_state) = closed.take(SHARED_STATE) else {
        unreachable!()
    };
    closed.free();
    shared_state
}

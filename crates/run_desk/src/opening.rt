//! How a turn queue is made.
ghost use Rattle.std.specs.Prelude.{◌≡◌, ◌≤◌, [], ◌++◌, map, vec_len, vec_capacity, IfOk, IfErr};
ghost use Rattle.run_desk.specs.Rule.{newcomers};
ghost use Rattle.run_desk.specs.Turns.{first_passes};

use crate::pass::{Pass, Passes};
use crate::plays::Deal;
use crate::rule::{Board, OwnBoard, Place, Start};
use crate::shared_state::SharedState;
use atomic_table::{Refused, Table};
use std::alloc::Global;

/// The words, and the slot with the shared state. The seat has the hands of all workers.
pub(crate) fn lay<B: SharedState>(
    alloc: Global,
    shared_state: B,
    start: &Start<B>,
) -> Result<(OwnBoard<B>, Place<B>), B>
    requires empty { B.entries shared_state ≡ [] }
    requires start { start.now.shared_state.value ≡ shared_state }
    requires few { start.now.workers ≤ 16 }
    ensures board { IfOk result (λ laid. (laid.0.shared.table_id.words ≡ 3) × (laid.0.shared.table_id.slots ≡ 1) × (laid.0.shared.key ≡ start.now)) }
    ensures seat { IfOk result (λ laid. (laid.1.table_id ≡ laid.0.shared.table_id) × (laid.1.me ≡ (newcomers (B.opening shared_state) start.now.workers, []))) }
    ensures err { IfErr result (λ back. back ≡ shared_state) }
{
    let Ok(mut slots) = Vec::with_capacity(alloc, 1) else {
        return Err(shared_state);
    };
    slots.push_reserved(Some(shared_state));
    match Table::new(alloc, &[0, 0, 0], slots, start) {
        Ok(laid) => Ok(laid),
        Err(Refused { mut slots }) => {
            let Some(Some(shared_state)) = slots.pop() else {
                unreachable!()
            };
            slots.destroy_empty();
            Err(shared_state)
        }
    }
}

/// A pass for each worker, from the seat that has the hands of all.
pub(crate) fn deal<B: SharedState>(
    board: &Board<B>,
    mut seat: Place<B>,
    workers: u32,
    passes: &mut Passes<B>,
)
    requires board { (board.now.table_id.words ≡ 3) × (seat.table_id ≡ board.now.table_id) }
    requires seat { seat.me ≡ (newcomers (B.opening board.now.key.shared_state.value) workers, []) }
    requires room { (passes.old.items ≡ []) × (vec_len passes.old ≡ 0) × (workers ≤ vec_capacity passes.old) }
    ensures { passes.new.items ≡ first_passes (record { table = board.now.table_id; opening = B.opening board.now.key.shared_state.value; workers = workers }) }
{
    for number in 0..workers {
        let pass = Pass {
            seat: board.split_seat::<Deal>(&mut seat),
            worker: number,
        };
        passes.push_reserved(pass);
    }
}

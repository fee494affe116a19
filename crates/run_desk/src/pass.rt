//! What one worker has of a turn queue.
use crate::hand::View;
use crate::shared_state::SharedState;
use atomic_table::Seat;
use std::marker::Model;

/// The right to take turns as one worker. It is good for the turn queue that gave it.
///
/// A contract sees its turn queue, the worker's number, what the shared state began with, the turns that the worker took, and
/// the entries that it has seen.
#[derive(Drop)]
pub struct Pass<B: SharedState> {
    pub(crate) seat: Seat<Option<B>, View<B::Opening, B::Event>>,
    pub(crate) worker: u32,
}

impl<B: SharedState> Model for Pass<B> {
    ghost use Rattle.run_desk.specs.Turns.{PassView};

    ghost Value = { PassView B.Opening B.Event };

    ghost use Rattle.std.specs.Prelude.{◌≡◌, []};
    ghost use Rattle.run_desk.specs.declared.hand.Stage.TheVariants.{Rests};
    ghost use Rattle.run_desk.specs.Views.{worker_view, known_opening, own_of, seen_of};

    ghost view = { λ pass. record { table = pass.seat.table_id; worker = pass.worker; opening = known_opening pass.seat.me.0; own = own_of pass.seat.me.0; seen = seen_of pass.seat.me.0 } };

    ghost invariant = { λ pass. (opening : B.Opening) × (pass.seat.me ≡ (worker_view opening (seen_of pass.seat.me.0) pass.worker (own_of pass.seat.me.0) Rests, [])) };
}

/// The passes of a turn queue.
pub type Passes<B> = Vec<Pass<B>>;

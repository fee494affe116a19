//! The turn queue: workers take turns at one shared state.
ghost use Rattle.std.specs.Prelude.{◌≡◌, ◌≢◌, ◌≤◌, ◌⊎◌, [], ◌∷◌, ◌++◌, length, true, false, Ok, All, IfOk, IfErr, OnErr};
ghost use Rattle.run_desk.specs.Turns.{IsPassOf, IsSamePass, first_passes, StartsWith, longer, TurnQueueList, Takes, Sees};

use crate::close::{gather, taken_out};
use crate::opening::{deal, lay};
use crate::pass::{Pass, Passes};
use crate::plays::{Compare, Gather, Tell};
use crate::rule::{OwnBoard, SERVING, Start};
use crate::shared_state::SharedState;
use crate::steps::{draw, take, wait};
use std::alloc::{AllocError, Global};
use std::marker::Model;
use std::snapshot::Snapshot;
use std::sync::Wait;

/// A shared state and the queue of the workers that take turns at it, in the order in which they ask.
///
/// A contract sees which turn queue it is, what the shared state began with, and how many workers there are.
#[derive(Drop)]
pub struct TurnQueue<B: SharedState> {
    board: OwnBoard<B>,
}

impl<B: SharedState> Model for TurnQueue<B> {
    ghost use Rattle.run_desk.specs.Turns.{TurnQueueView};

    ghost Value = { TurnQueueView B.Opening };

    ghost use Rattle.std.specs.Prelude.{◌≡◌, ◌<◌};

    ghost view = { λ turn_queue. record { table = turn_queue.board.shared.table_id; opening = B.opening turn_queue.board.shared.key.shared_state.value; workers = turn_queue.board.shared.key.workers } };

    ghost invariant = { λ turn_queue. (turn_queue.board.shared.table_id.words ≡ 3) × (turn_queue.board.shared.table_id.slots ≡ 1) × (0 < turn_queue.board.shared.key.workers) };
}

impl<B: SharedState> TurnQueue<B> {
    /// A turn queue for a shared state whose list is empty, with a pass for each worker. Where memory is short, the shared
    /// state comes back.
    pub fn open(
        alloc: Global,
        shared_state: B,
        workers: u32,
    ) -> Result<(TurnQueue<B>, Passes<B>), (B, AllocError)>
        requires some { 1 ≤ workers }
        requires few { workers ≤ 16 }
        requires empty { B.entries shared_state ≡ [] }
        ensures opening { IfOk result (λ opened. opened.0.opening ≡ B.opening shared_state) }
        ensures workers { IfOk result (λ opened. opened.0.workers ≡ workers) }
        ensures passes { IfOk result (λ opened. opened.1.items ≡ first_passes opened.0) }
        ensures count { IfOk result (λ opened. length opened.1.items ≡ workers) }
        ensures ours { IfOk result (λ opened. All (IsPassOf opened.0) opened.1.items) }
        ensures err { IfErr result (λ refused. refused.0 ≡ shared_state) }
    {
        let start = Start {
            shared_state: Snapshot::of(&shared_state),
            workers,
        };
        let Ok(mut passes) = Vec::with_capacity(alloc, workers as usize) else {
            return Err((shared_state, AllocError));
        };
        match lay(alloc, shared_state, &start) {
            Ok((board, seat)) => {
                deal(&board.shared, seat, workers, &mut passes);
                Ok((TurnQueue { board }, passes))
            }
            Err(shared_state) => Err((shared_state, AllocError)),
        }
    }

    /// Waits until the worker's turn has come, and takes a turn at the shared state. The answer is the shared state's.
    pub fn turn<R: Wait>(&self, rt: &R, pass: &mut Pass<B>) -> Result<bool, AllocError>
        requires { IsPassOf self.now pass.old }
        ensures pass { IsSamePass pass.old pass.new }
        ensures took { result ≡ Ok true → Takes (B.is_over self.now.opening) pass.old pass.new }
        ensures others { result ≢ Ok true → Sees pass.old pass.new }
        ensures over { result ≡ Ok false → B.is_over self.now.opening pass.new.seen }
        ensures no_memory { OnErr result (¬ (B.is_over self.now.opening pass.new.seen)) }
    {
        let board = &self.board.shared;
        let ticket = draw(board, &mut pass.seat);
        wait(rt, board, &mut pass.seat, ticket);
        take(board, &mut pass.seat, pass.worker)
    }

    /// Lets one worker see what another has seen, where that is more. It takes no memory, and doesn't wait.
    pub fn meet(&self, from: &mut Pass<B>, into: &mut Pass<B>)
        requires from { IsPassOf self.now from.old }
        requires into { IsPassOf self.now into.old }
        ensures agree { StartsWith from.old.seen into.old.seen ⊎ StartsWith into.old.seen from.old.seen }
        ensures seen { into.new.seen ≡ longer from.old.seen into.old.seen }
        ensures own { into.new.own ≡ into.old.own }
        ensures into { IsSamePass into.old into.new }
        ensures from { from.new ≡ from.old }
    {
        let board = &self.board.shared;
        let witness = board.split_seat::<Tell>(&mut from.seat);
        board.join_seat::<Gather>(&mut into.seat, witness);
        board.load::<Compare>(&mut into.seat, SERVING);
    }

    /// The shared state, with the turns of all workers.
    pub fn close(self, passes: Passes<B>) -> B
        requires all { length passes.items ≡ self.workers }
        requires passes { All (IsPassOf self) passes.items }
        ensures opening { B.opening result ≡ self.opening }
        ensures list { TurnQueueList (B.entries result) passes.items }
    {
        let TurnQueue { board } = self;
        let seat = gather(&board.shared, passes);
        taken_out(board.close_with(seat))
    }
}

//! The workers of a turn queue, each in a thread of its own.

ghost use Rattle.std.specs.Prelude.{◌≡◌, ◌≤◌, ◌<◌, ◌^◌, [], length, map, true, vec_len, vec_capacity, All, Any, IfOk};
ghost use Rattle.run_desk.specs.Turns.{TurnQueueList, IsPassOf, IsSamePass};
ghost use Rattle.run_desk.specs.TurnQueueWorkers.Members.{HasStopped, IsMember};

use crate::turn_queue_workers::workers::{Worker, Workers, is_over, passes_of, workers_of};
use crate::{Pass, Passes, SharedState, TurnQueue};
use base_edges::Gate;
use std::alloc::{AllocError, Global};
use std::snapshot::Snapshot;
use std::sync::Wait;
use std::thread::{self, Threads};

/// The most workers that there are.
const WORKERS: usize = 16;

/// What workers leave of a shared state.
#[derive(Drop)]
pub struct Done<B: SharedState> {
    /// The shared state, with the turns of all workers.
    pub shared_state: B,
    /// Whether a worker found that no turn is left; else there was no memory for one.
    pub is_over: bool,
    /// The passes with which the turn queue was closed, for contracts alone: each has its worker's turns in their order.
    pub passes: Snapshot<Passes<B>>,
}

/// Takes turns for one worker until none is left, or there is no memory for one, and says whether none is left. The gate is told
/// before and after each, and never while the turn is held.
fn work<B: SharedState, R: Wait, G: Gate>(
    rt: &R,
    turn_queue: &TurnQueue<B>,
    gate: &G,
    number: u32,
    pass: &mut Pass<B>,
) -> bool
    requires { IsPassOf turn_queue.now pass.old }
    ensures pass { IsSamePass pass.old pass.new }
    ensures stopped { HasStopped (B.is_over turn_queue.now.opening) result pass.new }
{
    let mut nth = 0u64;
    for _ in rt.forever() {
        nth = nth.wrapping_add(1);
        gate.before(number, nth);
        let taken = turn_queue.turn(rt, pass);
        gate.after(number, nth);
        match taken {
            Ok(true) => {}
            Ok(false) => return true,
            Err(_) => return false,
        }
    }
    unreachable!()
}

/// A turn queue for a shared state whose list is empty, with its workers before their first turns, and room for their passes.
fn open_turn_queue<B: SharedState + Drop>(
    alloc: Global,
    shared_state: B,
    count: u32,
) -> Result<(TurnQueue<B>, Workers<B>, Passes<B>), AllocError>
    requires some { 1 ≤ count }
    requires few { count ≤ 16 }
    requires empty { B.entries shared_state ≡ [] }
    ensures opening { IfOk result (λ opened. opened.0.opening ≡ B.opening shared_state) }
    ensures count { IfOk result (λ opened. (opened.0.workers ≡ count) × (length opened.1.items ≡ count)) }
    ensures members { IfOk result (λ opened. All (λ worker. IsMember opened.0 worker.pass) opened.1.items) }
    ensures room { IfOk result (λ opened. (opened.2.items ≡ []) × (vec_len opened.2 ≡ 0) × (count ≤ vec_capacity opened.2)) }
{
    let room = Vec::with_capacity(alloc, count as usize)?;
    match TurnQueue::open(alloc, shared_state, count) {
        Ok((turn_queue, passes)) => Ok((turn_queue, workers_of(alloc, passes)?, room)),
        Err((_, fault)) => Err(fault),
    }
}

/// The shared state of a turn queue whose workers have stopped, with the turns of all of them.
fn close_turn_queue<B: SharedState + Drop>(
    turn_queue: TurnQueue<B>,
    workers: Workers<B>,
    room: Passes<B>,
) -> Done<B>
    requires all { length workers.items ≡ turn_queue.workers }
    requires members { All (λ worker. IsMember turn_queue worker.pass) workers.items }
    requires stopped { All (λ worker. HasStopped (B.is_over turn_queue.opening) worker.found_end worker.pass) workers.items }
    requires room { (room.items ≡ []) × (vec_len room ≡ 0) × (turn_queue.workers ≤ vec_capacity room) }
    ensures opening { B.opening result.shared_state ≡ turn_queue.opening }
    ensures list { TurnQueueList (B.entries result.shared_state) result.passes.value.items }
    ensures members { All (IsMember turn_queue) result.passes.value.items }
    ensures count { length result.passes.value.items ≡ turn_queue.workers }
    ensures over { result.is_over ≡ true → B.is_over turn_queue.opening (B.entries result.shared_state) }
{
    let is_over = is_over(workers.as_slice());
    let passes = passes_of(workers, room);
    let reported = Snapshot::of(&passes);
    Done {
        shared_state: turn_queue.close(passes),
        is_over,
        passes: reported,
    }
}

/// Lets each worker take turns until it stops, in a thread of its own where one can be made.
fn work_all<B: SharedState + Send, R: Threads + Wait + Sync, G: Gate + Sync>(
    rt: &R,
    turn_queue: &TurnQueue<B>,
    gate: &G,
    workers: &mut [Worker<B>],
)
    requires members { All (λ worker. IsMember turn_queue.now worker.pass) workers.old }
    requires few { length workers.old ≤ 16 }
    ensures members { All (λ worker. IsMember turn_queue.now worker.pass) workers.new }
    ensures stopped { All (λ worker. HasStopped (B.is_over turn_queue.now.opening) worker.found_end worker.pass) workers.new }
{
    thread::for_each_mut(
        rt,
        workers,
        WORKERS,
        &|place, worker: &mut Worker<B>|
            requires { (place < 2 ^ 32) × IsMember turn_queue.now worker.old.pass }
            ensures { IsMember turn_queue.entry.now worker.new.pass × HasStopped (B.is_over turn_queue.entry.now.opening) worker.new.found_end worker.new.pass }
        { worker.found_end = work(rt, turn_queue, gate, place as u32, &mut worker.pass) },
    );
}

/// Lets `workers` workers take turns at a shared state, each in a thread of its own, until none is left or there is no memory
/// for one.
pub fn take_turns<B: SharedState + Drop + Send, R: Threads + Wait + Sync, G: Gate + Sync>(
    rt: &R,
    alloc: Global,
    shared_state: B,
    workers: u32,
    gate: &G,
) -> Result<Done<B>, AllocError>
    requires some { 1 ≤ workers }
    requires few { workers ≤ 16 }
    requires empty { B.entries shared_state ≡ [] }
    ensures opening { IfOk result (λ done. B.opening done.shared_state ≡ B.opening shared_state) }
    ensures list { IfOk result (λ done. TurnQueueList (B.entries done.shared_state) done.passes.value.items) }
    ensures numbers { IfOk result (λ done. All (λ pass. pass.worker < workers) done.passes.value.items) }
    ensures count { IfOk result (λ done. length done.passes.value.items ≡ workers) }
    ensures below { IfOk result (λ done. All (λ entry. entry.worker < workers) (B.entries done.shared_state)) }
    ensures over { IfOk result (λ done. done.is_over ≡ true → B.is_over (B.opening done.shared_state) (B.entries done.shared_state)) }
{
    let (turn_queue, mut members, room) = open_turn_queue(alloc, shared_state, workers)?;
    work_all(rt, &turn_queue, gate, members.as_mut_slice());
    Ok(close_turn_queue(turn_queue, members, room))
}

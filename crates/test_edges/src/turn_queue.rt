//! A shared state of turns up to a limit, with four workers in threads, and with memory that is short once.
ghost use Rattle.std.specs.Prelude.{All};
ghost use Rattle.run_desk.specs.Turns.{IsPassOf};

use run_desk::{Entry, Pass, SharedState, TurnQueue};
use std::alloc::AllocError;
use std::sync::Wait;
use std::sync::atomic::{AtomicU64, Ordering};
use std::test::Fail;
use std::thread::{self, Threads};

// The list of turns, each with its place, up to a limit. Memory is short once, at the turn of this place.
#[derive(Debug, Drop)]
struct Score {
    limit: usize,
    short_at: usize,
    entries: Vec<Entry<usize>>,
}

impl SharedState for Score {
    type Opening = usize;

    type Event = usize;

    ghost use Rattle.std.specs.Prelude.{◌≤◌, length};
    ghost use Rattle.std.proofs.Common.{arith, length-append};

    ghost opening = { λ score. score.limit };

    ghost entries = { λ score. score.entries.items };

    ghost is_over = { λ limit entries. limit ≤ length entries };

    fn take_turn(&mut self, worker: u32) -> Result<bool, AllocError> {
        let event = self.entries.len();
        if event >= self.limit {
            return Ok(false);
        }
        if event == self.short_at {
            self.short_at = self.limit;
            return Err(AllocError);
        }
        self.entries.push(Entry { worker, event })?;
        Ok(true)
    }

    ghost stays_over = { λ limit before after over. Prim.omega (arith, length-append before after) };
}

// Takes six turns, and says of each whether it was taken; none where there was no memory for it.
fn six_turns<B: SharedState, R: Wait>(
    rt: &R,
    turn_queue: &TurnQueue<B>,
    pass: &mut Pass<B>,
) -> [Option<bool>; 6]
    requires { IsPassOf turn_queue.now pass.old }
    ensures { IsPassOf turn_queue.now pass.new }
{
    [
        turn_queue.turn(rt, pass).ok(),
        turn_queue.turn(rt, pass).ok(),
        turn_queue.turn(rt, pass).ok(),
        turn_queue.turn(rt, pass).ok(),
        turn_queue.turn(rt, pass).ok(),
        turn_queue.turn(rt, pass).ok(),
    ]
}

#[test]
fn memory_is_short_at_the_fifth_turn(rt: HostRuntime) -> Result<(), Fail> {
    let shared_state = Score {
        limit: 6,
        short_at: 4,
        entries: Vec::new(rt.alloc()),
    };
    let (turn_queue, mut passes) = TurnQueue::open(rt.alloc(), shared_state, 1)?;
    let taken = six_turns(&rt, &turn_queue, &mut passes[0]);
    let shared_state = turn_queue.close(passes);
    assert_eq!(rt;
        taken,
        [
            Some(true),
            Some(true),
            Some(true),
            Some(true),
            None,
            Some(true),
        ]
    );
    assert_eq!(rt; shared_state.entries.len(), 5);
    Ok(())
}

// Takes turns until none is left, and says how many it took.
fn work<B: SharedState, R: Wait>(rt: &R, turn_queue: &TurnQueue<B>, pass: &mut Pass<B>) -> u64
    requires { IsPassOf turn_queue.now pass.old }
    ensures { IsPassOf turn_queue.now pass.new }
{
    let mut taken = 0u64;
    for _ in rt.forever() {
        match turn_queue.turn(rt, pass) {
            Ok(true) => taken = taken.wrapping_add(1),
            Ok(false) | Err(_) => return taken,
        }
    }
    unreachable!()
}

const WORKERS: usize = 4;

// Lets each worker do so in a thread of its own, and says how many turns all took.
fn work_all<B: SharedState + Send, R: Threads + Wait + Sync>(
    rt: &R,
    turn_queue: &TurnQueue<B>,
    passes: &mut [Pass<B>],
) -> u64
    requires { All (IsPassOf turn_queue.now) passes.old }
    ensures { All (IsPassOf turn_queue.now) passes.new }
{
    let taken = AtomicU64::new(0);
    thread::for_each_mut(
        rt,
        passes,
        WORKERS,
        &|_, pass| {
            taken.fetch_add(work(rt, turn_queue, pass), Ordering::SeqCst);
        },
    );
    taken.load(Ordering::SeqCst)
}

// Whether each turn has its own place.
fn are_in_order(entries: &[Entry<usize>]) -> bool {
    entries
        .iter()
        .enumerate()
        .all(|(place, entry)| entry.event == place)
}

#[test]
fn four_threads_take_a_thousand_turns(rt: HostRuntime) -> Result<(), Fail> {
    let shared_state = Score {
        limit: 1000,
        short_at: 1000,
        entries: Vec::new(rt.alloc()),
    };
    let (turn_queue, mut passes) = TurnQueue::open(rt.alloc(), shared_state, WORKERS as u32)?;
    assert_eq!(rt; work_all(&rt, &turn_queue, passes.as_mut_slice()), 1000);
    let shared_state = turn_queue.close(passes);
    assert_eq!(rt; shared_state.entries.len(), 1000);
    assert!(rt; are_in_order(shared_state.entries.as_slice()));
    assert!(rt; shared_state.entries.iter().all(|entry| entry.worker < 4));
    Ok(())
}

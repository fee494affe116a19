//! A gate at which two workers meet.

use base_edges::Gate;
use std::sync::atomic::{AtomicU64, Ordering};
use std::thread;

/// How often a worker looks for the other, at most.
const LOOKS: u32 = 100_000_000;

/// Keeps each of the workers 0 and 1 before its `nth` turn until the other has reached its `nth` too, for `nth` from 1 to the last
/// turn at which they are to meet. A worker that has had its turn of a pair must not take the other one's: so all turns of both
/// but those last ones go in pairs, one turn of each worker.
/// Only threads can meet: where one worker goes first, it looks for the other in vain, and then goes on.
#[derive(Drop)]
pub struct Meeting {
    last: u64,
    reached: [AtomicU64; 2],
    missed: AtomicU64,
}

impl Meeting {
    /// Workers are to meet up to this turn, and none has reached its first. At 0 nobody is kept.
    pub fn new(last: u64) -> Meeting {
        Meeting {
            last,
            reached: [AtomicU64::new(0), AtomicU64::new(0)],
            missed: AtomicU64::new(0),
        }
    }

    /// Whether each worker has reached its last turn, and none looked for the other in vain.
    pub fn all_met(&self) -> bool {
        let [first, second] = &self.reached;
        first.load(Ordering::SeqCst) >= self.last
            && second.load(Ordering::SeqCst) >= self.last
            && self.missed.load(Ordering::SeqCst) == 0
    }
}

impl Gate for Meeting {
    fn before(&self, worker: u32, nth: u64) {
        if nth > self.last {
            return;
        }
        let [first, second] = &self.reached;
        let (own, other) = if worker == 0 {
            (first, second)
        } else {
            (second, first)
        };
        own.store(nth, Ordering::SeqCst);
        for _ in 0..LOOKS {
            if other.load(Ordering::SeqCst) >= nth {
                return;
            }
            thread::yield_now();
        }
        self.missed.store(1, Ordering::SeqCst);
    }

    fn after(&self, _worker: u32, _nth: u64) {}
}

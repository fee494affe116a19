//! The workers of a turn queue.

ghost use Rattle.std.specs.Prelude.{◌≡◌, ◌≤◌, [], length, map, true, vec_len, vec_capacity, Any, IfOk};

use crate::{Pass, Passes, SharedState};
use std::alloc::{AllocError, Global};

/// A worker of a turn queue.
#[derive(Drop)]
pub(crate) struct Worker<B: SharedState> {
    /// Its pass.
    pub(crate) pass: Pass<B>,
    /// Whether it found that no turn is left.
    pub(crate) found_end: bool,
}

/// The workers of a turn queue.
pub(crate) type Workers<B> = Vec<Worker<B>>;

/// The workers of these passes, before their first turns.
pub(crate) fn workers_of<B: SharedState + Drop>(
    alloc: Global,
    passes: Passes<B>,
) -> Result<Workers<B>, AllocError>
    ensures { IfOk result (λ workers. map (λ worker. worker.pass) workers.items ≡ passes.items) }
{
    let mut workers = Vec::with_capacity(alloc, passes.len())?;
    for pass in passes {
        workers.push_reserved(Worker {
            pass,
            found_end: false,
        });
    }
    Ok(workers)
}

/// The passes of the workers, in the room that was made for them.
pub(crate) fn passes_of<B: SharedState + Drop>(workers: Workers<B>, room: Passes<B>) -> Passes<B>
    requires empty { room.items ≡ [] }
    requires none { vec_len room ≡ 0 }
    requires capacity { length workers.items ≤ vec_capacity room }
    ensures { result.items ≡ map (λ worker. worker.pass) workers.items }
{
    let mut passes = room;
    for worker in workers {
        passes.push_reserved(worker.pass);
    }
    passes
}

/// Whether one of the workers found that no turn is left; else there was no memory for any of them.
pub(crate) fn is_over<B: SharedState>(workers: &[Worker<B>]) -> bool
    ensures { result ≡ true → Any (λ worker. worker.found_end ≡ true) workers.now }
{
    workers.iter().any(|worker| worker.found_end)
}

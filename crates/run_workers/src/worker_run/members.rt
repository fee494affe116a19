//! A worker, and an actor whose turn it may take.

ghost use Rattle.std.specs.Prelude.{◌≡◌, ◌<◌, ◌==◌, ◌%◌};

use base_script::Actor;

/// A worker's number, from 0, and how many workers there are.
#[derive(Clone, Copy)]
pub(crate) struct Member {
    /// How many workers there are.
    pub(crate) workers: u32,
    /// The worker's number.
    pub(crate) worker: u32,
}

/// An actor, and its place in the fixed order, from 0.
#[derive(Clone, Copy)]
pub(crate) struct Candidate {
    /// From 0, in the fixed order.
    pub(crate) place: usize,
    /// The actor at this place.
    pub(crate) actor: Actor,
}

impl Member {
    /// Whether the actor at this place is the worker's own.
    pub(crate) fn owns(self, place: usize) -> bool
        requires { 0 < self.workers }
        ensures { result ≡ (place % self.workers == self.worker) }
    {
        place % self.workers as usize == self.worker as usize
    }
}

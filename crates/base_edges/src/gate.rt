//! Who is told of a worker's turns.

/// Is told when a worker asks for a turn and when it has had it, always between turns, so that a test can order the workers.
pub trait Gate {
    /// Worker `worker` is about to ask for its `nth` turn, counted from 1.
    fn before(&self, worker: u32, nth: u64);

    /// Worker `worker` has had its `nth` turn, counted from 1.
    fn after(&self, worker: u32, nth: u64);
}

/// A gate that holds nobody.
#[derive(Clone, Copy, Default)]
pub struct OpenGate;

impl Gate for OpenGate {
    fn before(&self, _worker: u32, _nth: u64) {}

    fn after(&self, _worker: u32, _nth: u64) {}
}

//! What the operator commands.

use base_values::Sequence;

/// A command of the operator to the tool.
#[derive(Clone, Copy)]
pub enum OperatorWord {
    /// Hold the copying of rows.
    Throttle,
    /// Copy rows again.
    NoThrottle,
    /// Copy this many rows a chunk from now on.
    ChunkSize(u32),
    /// Cut over as soon as all is copied and applied.
    Unpostpone,
    /// Give the migration up.
    Panic,
    /// Nothing, for a turn.
    Wait,
}

/// A command, and how many of the operator's turns it takes.
#[derive(Clone, Copy)]
pub struct Command {
    /// What is commanded.
    pub word: OperatorWord,
    /// How many turns it takes: one, but for a wait.
    pub units: u32,
}

/// Commands in order.
pub type Commands = Sequence<Command>;

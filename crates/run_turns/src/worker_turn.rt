//! Whose turns a run took, and by which workers.

ghost use Rattle.std.specs.Prelude.{◌≡◌};

use base_script::Actor;
use base_values::Sequence;
use std::marker::Model;

/// A turn of a run: the worker that took it, and whose turn it was.
#[derive(Drop)]
pub struct WorkerTurn {
    worker: u32,
    actor: Actor,
}

impl Model for WorkerTurn {
    ghost use Rattle.tool_program.specs.Orders.{WorkerTurn};

    ghost Value = { WorkerTurn };

    ghost view = { λ turn. record { worker = turn.worker; actor = turn.actor } };
}

/// The turns of a run, in order.
pub type Turns = Sequence<WorkerTurn>;

impl WorkerTurn {
    /// The turn that this worker took for this actor.
    pub fn new(worker: u32, actor: Actor) -> WorkerTurn
        ensures { result ≡ record { worker = worker; actor = actor } }
    {
        WorkerTurn { worker, actor }
    }

    /// The number of the worker that took it, from 0; 0 where no workers did, as in a replay.
    pub fn worker(&self) -> u32
        ensures { result ≡ self.now.worker }
    {
        self.worker
    }

    /// Whose turn it was.
    pub fn actor(&self) -> Actor
        ensures { result ≡ self.now.actor }
    {
        self.actor
    }
}

//! Lost connections, and waits that end by timeout.

use crate::actor::{Actor, Side};

/// A turn at which an actor's connection is lost.
#[derive(Clone, Copy)]
pub enum Loss {
    /// At the actor's n-th call, counted from 1.
    Nth {
        /// Whose connection.
        actor: Actor,
        /// Which of its calls.
        n: u32,
        /// Before or after the server does the call.
        side: Side,
    },
    /// At this turn, where the actor has a connection then.
    Turn {
        /// The turn, counted from 1.
        turn: u32,
        /// Whose connection.
        actor: Actor,
    },
}

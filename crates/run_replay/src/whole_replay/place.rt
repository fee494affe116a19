//! How far a replay is in its order of turns.

use base_script::Actor;

/// What is left of a replay's order: the plan's words from one on, and the actors of a pass from one on.
#[derive(Clone, Copy)]
pub(crate) struct OrderPlace {
    /// The plan's run of words that comes next.
    pub(crate) run: usize,
    /// How many of its words are done.
    pub(crate) used: u32,
    /// The place in the fixed order of the actor that comes next in the pass.
    pub(crate) actor: usize,
}

/// The actor whose turn comes next, and what is left after that turn.
#[derive(Clone, Copy)]
pub(crate) struct NextTurn {
    /// Whose turn it is.
    pub(crate) actor: Actor,
    /// What is left after its turn.
    pub(crate) following: OrderPlace,
}

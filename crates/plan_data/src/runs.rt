//! The order of turns that a plan asks for.

use base_script::Actor;
use base_values::Sequence;

/// Turns of one actor, one after the other, as a word of a plan's `turns` asks for them: `copy*3`.
#[derive(Clone, Copy)]
pub struct ActorRun {
    /// Whose turns.
    pub actor: Actor,
    /// How many.
    pub times: u32,
}

/// Runs of turns in order.
pub type ActorRuns = Sequence<ActorRun>;

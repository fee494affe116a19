//! Why a text is no order of turns.

use base_values::Fault;

/// 56: a word asks for no turns of an actor that the plan has.
#[derive(Clone, Copy, Debug)]
pub struct TurnRefusal {
    /// The word's number in the text, from 1.
    pub word: u32,
}

/// Why a text isn't read: it is refused, or there is no memory.
pub type TurnFault = Fault<TurnRefusal>;

//! What was answered in a turn of a run, found by the turn's number.

ghost use Rattle.std.specs.Prelude.{◌≡◌, option_map};
ghost use Rattle.server_model.specs.Entries.{answer_at};

use crate::{Answer, Entry};

/// The answer in the turn of this number, from 1; none where there is no such turn.
#[tactic(auto, unfolding(crate::specs::Entries::answer_at))]
pub fn answer_at(turns: &[Entry], turn: u64) -> Option<&Answer>
    ensures { option_map (λ answer. answer.now) result ≡ answer_at turns.now turn }
{
    match turns.get(turn.saturating_sub(1) as usize) {
        Some(entry) => Some(&entry.answer),
        None => None,
    }
}

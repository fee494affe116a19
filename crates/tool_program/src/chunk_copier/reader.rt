//! What the copier was answered in earlier turns, read back in the journal.

ghost use Rattle.std.specs.Prelude.{◌≡◌, [], IfOk};
ghost use Rattle.server_model.specs.Entries.{answer_at};
ghost use Rattle.server_model.specs.EarlierAnswers.{keys_in, end_in};

use base_values::{Duplicate, Key, Sequence, Shared, Value};
use server_model::turn_answers::answer_at;
use server_model::{Answer, Entry};
use std::alloc::{AllocError, Global};

/// The keys of a chunk.
pub(crate) fn keys_reported(journal: &[Entry], turn: u64) -> &[Key]
    ensures { result.now ≡ keys_in (answer_at journal.now turn) }
{
    match answer_at(journal, turn) {
        Some(Answer::Keys { keys, .. }) => keys.as_slice(),
        _ => &[],
    }
}

/// Where a chunk ends.
pub(crate) fn end_reported(alloc: Global, journal: &[Entry], turn: u64) -> Result<Key, AllocError>
    ensures { IfOk result (λ end. end ≡ end_in (answer_at journal.now turn)) }
{
    match answer_at(journal, turn) {
        Some(Answer::Keys { end, .. } | Answer::End(end)) => end.copy(),
        _ => Shared::from_sequence(Sequence::new(alloc)),
    }
}

/// The key at which a chunk ends, where it lies.
pub(crate) fn last_key(journal: &[Entry], turn: u64) -> &[Value]
    ensures { result.now ≡ end_in (answer_at journal.now turn) }
{
    match answer_at(journal, turn) {
        Some(Answer::Keys { end, .. } | Answer::End(end)) => end.as_slice(),
        _ => &[],
    }
}

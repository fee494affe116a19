//! Whose turns a run took.

ghost use Rattle.std.specs.Prelude.{◌≡◌, ◌≤◌, ◌+◌, ◌++◌, drop, length};
ghost use Rattle.std.specs.Vec.{vec_len, vec_capacity};
ghost use Rattle.top_call.specs.Outcomes.{turns_of};

use base_values::Sequence;
use run_turns::{Turns, WorkerTurn};
use server_model::Entry;

/// Adds turns that no worker took: a replay's, or a new tool's. They are of worker 0.
fn push_turns(turns: &mut Vec<WorkerTurn>, entries: &[Entry])
    requires capacity { vec_len turns.old + length entries.now ≤ vec_capacity turns.old }
    ensures { turns.new.items ≡ turns.old.items ++ turns_of entries.now }
{
    for entry in entries {
        turns.push_reserved(WorkerTurn::new(0, entry.actor));
    }
}

/// Whose turns a journal has, the first of them those that workers took; the others are a replay's, or a new tool's. There is room
/// for them.
pub(crate) fn turns_in(taken: Vec<WorkerTurn>, journal: &[Entry]) -> Turns
    requires few { length taken.items ≤ length journal.now }
    requires capacity { length journal.now ≤ vec_capacity taken }
    ensures { result ≡ taken.items ++ turns_of (drop (length taken.items) journal.now) }
{
    let mut turns = taken;
    let count = turns.as_slice().len();
    push_turns(&mut turns, &journal[count..]);
    Sequence::from_vec(turns)
}

//! The turns that workers took, and the place from which each rotation goes on.

ghost use Rattle.std.specs.Prelude.{◌≡◌, ◌<◌, ◌+◌, ◌^◌, [], ◌∷◌, ◌++◌, length, vec_len, vec_capacity, slice_index};
ghost use Rattle.server_model.specs.Entries.{is_cut};
ghost use Rattle.run_workers.specs.WorkerRun.Workers.{places_after};

use crate::worker_run::members::{Candidate, Member};
use run_turns::WorkerTurn;
use server_model::Entry;

/// The place from which the worker's rotation goes on; a worker beyond those that there are begins anew.
pub(crate) fn place_from(places: &[usize], worker: u32) -> usize
    ensures { result ≡ slice_index places.now worker }
{
    places.get(worker as usize).copied().unwrap_or(0)
}

/// Whether the turn is a loss between calls.
fn is_cut(entry: &Entry) -> bool
    ensures { result ≡ is_cut entry.now.asked }
{
    entry.asked.is_cut()
}

/// Notes the worker's turn; after an own actor's, but for a loss between calls, its rotation goes on from the next place.
pub(crate) fn note(
    turns: &mut Vec<WorkerTurn>,
    places: &mut [usize],
    member: Member,
    candidate: Candidate,
    entry: &Entry,
)
    requires some { 0 < member.workers }
    requires room { vec_len turns.old < vec_capacity turns.old }
    requires places { length places.old ≡ member.workers }
    requires next { candidate.place + 1 < 2 ^ 64 }
    ensures turns { turns.new.items ≡ turns.old.items ++ record { worker = member.worker; actor = entry.now.actor } ∷ [] }
    ensures count { vec_len turns.new ≡ vec_len turns.old + 1 }
    ensures room { vec_capacity turns.new ≡ vec_capacity turns.old }
    ensures places { places.new ≡ places_after places.old member candidate.place (is_cut entry.now.asked) }
{
    turns.push_reserved(WorkerTurn::new(member.worker, entry.actor));
    if !is_cut(entry) && member.owns(candidate.place) {
        places[member.worker as usize] = candidate.place + 1;
    }
}

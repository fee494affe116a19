//! The requests that wait, in the order in which they came.

ghost use Rattle.std.specs.Prelude.{◌≡◌, ◌==◌, ◌≤◌, not, filter, MatchOption, None, is_some, vec_len};
ghost use Rattle.server_locks.specs.MetadataLocks.Grants.{place_of, ahead_of};
ghost use Rattle.server_locks.specs.MetadataLocks.WaitQueue.{IsAt};

use crate::metadata_locks::request::Waiter;

/// The place of the session's request, where it has one.
pub fn place_of(waiting: &[Waiter], session: u32) -> Option<usize>
    ensures variant { is_some result ≡ is_some (place_of session waiting.now) }
    ensures place { MatchOption result (place_of session waiting.now ≡ None) (IsAt session waiting.now) }
{
    for (i, waiter) in waiting.iter().enumerate() {
        if waiter.session == session {
            return Some(i);
        }
    }
    None
}

/// The requests that came before the session's.
pub fn ahead_of(waiting: &[Waiter], session: u32) -> &[Waiter]
    ensures { result.now ≡ ahead_of session waiting.now }
{
    match place_of(waiting, session) {
        Some(place) => &waiting[..place],
        None => waiting,
    }
}

/// Takes away the session's requests.
pub fn end_waits(waiting: &mut Vec<Waiter>, session: u32)
    ensures rest { waiting.new.items ≡ filter (λ waiter. not (waiter.session == session)) waiting.old.items }
    ensures room { vec_len waiting.new ≤ vec_len waiting.old }
{
    waiting.retain(|waiter| waiter.session != session);
}

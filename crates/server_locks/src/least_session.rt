//! The least of the sessions that stand in a request's way, which is the one that an answer names.

ghost use Rattle.std.specs.Prelude.{◌≡◌};
ghost use Rattle.server_locks.specs.LeastSession.Least.{least};

/// The lesser of two sessions, or the one that is there.
pub fn least(a: Option<u32>, b: Option<u32>) -> Option<u32>
    ensures { result ≡ least a b }
{
    match (a, b) {
        (Some(a), Some(b)) => Some(a.min(b)),
        (None, b) => b,
        (a, None) => a,
    }
}

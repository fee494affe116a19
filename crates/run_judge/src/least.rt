//! The least of some turns.

ghost use Rattle.std.specs.Prelude.{◌≡◌};
ghost use Rattle.run_audit.specs.Audits.{least_with};
ghost use Rattle.run_judge.specs.Leasts.{lesser};

use std::cmp::min;

/// The least of these turns and one more.
pub fn least_with(turn: u64, others: Option<u64>) -> Option<u64>
    ensures { result ≡ least_with turn others }
{
    match others {
        None => Some(turn),
        Some(other) => Some(min(turn, other)),
    }
}

/// The lesser of two turns, where there are any.
pub fn lesser(one: Option<u64>, other: Option<u64>) -> Option<u64>
    ensures { result ≡ lesser one other }
{
    match one {
        None => other,
        Some(turn) => least_with(turn, other),
    }
}

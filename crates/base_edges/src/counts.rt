//! Counting faults, and when a fault that was ordered comes.

ghost use Rattle.std.specs.Prelude.{◌≡◌, ◌≤◌};
ghost use Rattle.base_edges.specs.Edges.{Rose};
ghost use Rattle.base_edges.specs.Memory.{before_fault, nearer_fault, one_more};

/// One more fault than `faults`, where the count isn't at its last value.
pub(crate) fn risen(faults: u64) -> u64
    ensures value { result ≡ one_more faults }
    ensures rose { Rose faults result }
    ensures never_falls { faults ≤ result }
{
    faults.saturating_add(1)
}

/// How many of `len` bytes pass before the fault.
pub(crate) fn passing(until_fault: Option<usize>, len: usize) -> usize
    ensures { result ≡ before_fault until_fault len }
{
    until_fault.map_or(len, |bytes| bytes.min(len))
}

/// How many bytes still pass before the fault, once `len` have passed.
pub(crate) fn nearer(until_fault: Option<usize>, len: usize) -> Option<usize>
    ensures { result ≡ nearer_fault until_fault len }
{
    until_fault.map(|bytes| bytes.saturating_sub(len))
}

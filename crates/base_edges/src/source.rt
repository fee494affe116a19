//! Where bytes come from.

ghost use Rattle.std.specs.Prelude.{◌≡◌, ℕ, ◌<◌, ◌≤◌, List, [], length, take, Option, None};
ghost use Rattle.std.specs.Io.KnownBytes.{Consumes, IsAtEnd};
ghost use Rattle.base_edges.specs.Edges.{IfTaken, OnEnd, OnSourceFault, Rose};

/// What one call of a source gave.
#[derive(Clone, Copy, Debug, PartialEq, Eq)]
pub enum Took {
    /// This many bytes, now in front of the buffer. There may be more.
    Some(usize),
    /// None, and there are no more.
    End,
    /// None, by a fault of the source. The next call asks for the same bytes again.
    Failed,
}

/// Gives its bytes in order, some at a call.
///
/// A source says in ghost what it has left and how often it failed. One that knows nothing of its bytes, as a file,
/// leaves `left` out, and every clause on it then holds of itself.
pub trait Source {
    // The bytes that are left, where the source tells them.
    ghost left: { Self → Option (List ℕ) } = { λ _. None };

    // How many calls failed. It stops at 2^64 - 1.
    ghost faults: { Self → ℕ };

    /// Puts the next bytes in front of `into`, as many as the source likes. What follows them in `into` is free.
    fn take(&mut self, into: &mut [u8]) -> Took
        requires { 0 < length into.old }

        ensures some { IfTaken result (λ n. 0 < n) }
        ensures room { IfTaken result (λ n. n ≤ length into.new) }
        ensures bytes { IfTaken result (λ n. Consumes (left self.old) (left self.new) (take n into.new)) }

        ensures end { OnEnd result (IsAtEnd (left self.new)) }
        ensures end_takes_none { OnEnd result (Consumes (left self.old) (left self.new) []) }

        ensures failed { OnSourceFault result (Rose (faults self.old) (faults self.new)) }
        ensures failed_takes_none { OnSourceFault result (Consumes (left self.old) (left self.new) []) }

        ensures never_falls { faults self.old ≤ faults self.new };
}

//! Where bytes go.

ghost use Rattle.std.specs.Prelude.{◌≡◌, ℕ, ◌<◌, ◌≤◌, List, [], length, take, Option, None};
ghost use Rattle.std.specs.Io.KnownBytes.{Appends};
ghost use Rattle.base_edges.specs.Edges.{IfGiven, OnSinkFault, Rose};

/// What one call of a sink took.
#[derive(Clone, Copy, Debug, PartialEq, Eq)]
pub enum Gave {
    /// This many bytes from the front of the piece.
    Some(usize),
    /// None, by a fault of the sink.
    Failed,
}

/// Takes bytes in order, some at a call.
///
/// A sink says in ghost what it holds and how often it failed. One that knows nothing of its bytes, as a terminal,
/// leaves `held` out, and every clause on it then holds of itself.
pub trait Sink {
    // The bytes that the sink holds, where it tells them.
    ghost held: { Self → Option (List ℕ) } = { λ _. None };

    // How many calls failed. It stops at 2^64 - 1.
    ghost faults: { Self → ℕ };

    /// Takes bytes from the front of the piece, as many as the sink likes. To take none of some is a fault.
    fn give(&mut self, piece: &[u8]) -> Gave
        ensures some { IfGiven result (λ n. 0 < length piece.now → 0 < n) }
        ensures most { IfGiven result (λ n. n ≤ length piece.now) }
        ensures bytes { IfGiven result (λ n. Appends (held self.old) (held self.new) (take n piece.now)) }

        ensures failed { OnSinkFault result (Rose (faults self.old) (faults self.new)) }
        ensures failed_gives_none { OnSinkFault result (Appends (held self.old) (held self.new) []) }

        ensures never_falls { faults self.old ≤ faults self.new };
}

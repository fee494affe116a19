//! A sink over memory.

ghost use Rattle.std.specs.Prelude.{◌≡◌, ◌<◌, ◌≤◌, [], length, take, Some};
ghost use Rattle.std.specs.Io.KnownBytes.{Appends};
ghost use Rattle.base_edges.specs.Edges.{IfGiven, OnSinkFault, Rose};
ghost use Rattle.base_edges.specs.Memory.{after_giving, after_sink_fault, before_fault};

use crate::counts::{nearer, passing, risen};
use crate::sink::{Gave, Sink};
use std::alloc::Global;
use std::marker::Model;

/// Holds what it was given, and fails once it has taken this many bytes.
#[derive(Drop)]
pub struct BytesSink {
    held: Vec<u8>,
    until_fault: Option<usize>,
    faults: u64,
}

impl Model for BytesSink {
    ghost use Rattle.base_edges.specs.Memory.{BytesHeld};

    ghost Value = { BytesHeld };

    ghost view = { λ s. record { held = s.held.items; until_fault = s.until_fault; faults = s.faults } };
}

impl BytesSink {
    /// A sink that holds nothing yet. With `fail_at` it takes that many bytes and then fails at each piece that isn't
    /// empty. Running out of memory is a fault of the sink too; with `None` there is no other.
    pub fn new(alloc: Global, fail_at: Option<usize>) -> BytesSink
        ensures { result ≡ record { held = []; until_fault = fail_at; faults = 0 } }
    {
        BytesSink {
            held: Vec::new(alloc),
            until_fault: fail_at,
            faults: 0,
        }
    }

    /// The bytes taken so far.
    pub fn held(&self) -> &[u8]
        ensures { result.now ≡ self.now.held }
    {
        self.held.as_slice()
    }

    /// How many calls failed. It stops at `u64::MAX`.
    pub fn faults(&self) -> u64
        ensures { result ≡ self.now.faults }
    {
        self.faults
    }
}

impl Sink for BytesSink {
    ghost held = { λ s. Some s.held };

    ghost faults = { λ s. s.faults };

    /// Takes as much of the piece as comes before the fault, or fails, being out of memory.
    fn give(&mut self, piece: &[u8]) -> Gave
        // What every sink says.
        ensures some { IfGiven result (λ n. 0 < length piece.now → 0 < n) }
        ensures most { IfGiven result (λ n. n ≤ length piece.now) }
        ensures bytes { IfGiven result (λ n. Appends (Some self.old.held) (Some self.new.held) (take n piece.now)) }
        ensures failed { OnSinkFault result (Rose self.old.faults self.new.faults) }
        ensures failed_gives_none { OnSinkFault result (Appends (Some self.old.held) (Some self.new.held) []) }
        ensures never_falls { self.old.faults ≤ self.new.faults }

        // When it takes the empty piece and when it fails, and how much it takes. A fault for lack of memory is free.
        ensures empty { piece.now ≡ [] → result ≡ Gave.Some 0 }
        ensures due { 0 < length piece.now → self.old.until_fault ≡ Some 0 → result ≡ Gave.Failed }
        ensures how_many { IfGiven result (λ n. n ≡ before_fault self.old.until_fault (length piece.now)) }

        // What it makes of the sink.
        ensures after { IfGiven result (λ n. self.new ≡ after_giving self.old piece.now n) }
        ensures after_fault { OnSinkFault result (self.new ≡ after_sink_fault self.old) }
    {
        if piece.is_empty() {
            return Gave::Some(0);
        }
        let given = passing(self.until_fault, piece.len());
        if given == 0 || self.held.extend_from_slice(&piece[..given]).is_err() {
            self.faults = risen(self.faults);
            return Gave::Failed;
        }
        self.until_fault = nearer(self.until_fault, given);
        Gave::Some(given)
    }
}

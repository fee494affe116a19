//! A source over memory.

ghost use Rattle.std.specs.Prelude.{◌≡◌, ◌↔◌, ◌<◌, ◌≤◌, ◌++◌, min, [], length, take, drop, Some, IsNone};
ghost use Rattle.std.specs.Io.KnownBytes.{Consumes, IsAtEnd};
ghost use Rattle.base_edges.specs.Edges.{IfTaken, OnEnd, OnSourceFault, Rose};
ghost use Rattle.base_edges.specs.Memory.{after_source_fault, after_taking, before_fault};

use crate::counts::{nearer, passing, risen};
use crate::source::{Source, Took};
use std::marker::Model;

/// Gives its bytes in order, and fails at the first call that would pass a place.
#[derive(Drop)]
pub struct BytesSource {
    bytes: Vec<u8>,
    place: usize,
    until_fault: Option<usize>,
    faults: u64,
}

impl Model for BytesSource {
    ghost use Rattle.std.specs.Prelude.{◌≤◌, drop, vec_len};
    ghost use Rattle.base_edges.specs.Memory.{BytesLeft};

    ghost Value = { BytesLeft };

    ghost view = { λ s. record { left = drop s.place s.bytes.items; until_fault = s.until_fault; faults = s.faults } };

    ghost invariant = { λ s. s.place ≤ vec_len s.bytes };
}

impl BytesSource {
    /// A source of these bytes. With `fail_at` it gives the bytes before that place, and each call that would pass
    /// it fails; a source with no byte at that place never does, and ends. With `None` it never fails.
    pub fn new(bytes: Vec<u8>, fail_at: Option<usize>) -> BytesSource
        ensures { result ≡ record { left = bytes.items; until_fault = fail_at; faults = 0 } }
    {
        BytesSource {
            bytes,
            place: 0,
            until_fault: fail_at,
            faults: 0,
        }
    }

    /// How many calls failed. It stops at `u64::MAX`.
    pub fn faults(&self) -> u64
        ensures { result ≡ self.now.faults }
    {
        self.faults
    }
}

impl Source for BytesSource {
    ghost left = { λ s. Some s.left };

    ghost faults = { λ s. s.faults };

    /// Gives as many bytes as there is room for, as are left, and as come before the fault.
    #[tactic(auto, using(crate::proofs::Buffers::copied_then_rest))]
    fn take(&mut self, into: &mut [u8]) -> Took
        requires { 0 < length into.old }

        // What every source says.
        ensures some { IfTaken result (λ n. 0 < n) }
        ensures room { IfTaken result (λ n. n ≤ length into.new) }
        ensures bytes { IfTaken result (λ n. Consumes (Some self.old.left) (Some self.new.left) (take n into.new)) }
        ensures end { OnEnd result (IsAtEnd (Some self.new.left)) }
        ensures end_takes_none { OnEnd result (Consumes (Some self.old.left) (Some self.new.left) []) }
        ensures failed { OnSourceFault result (Rose self.old.faults self.new.faults) }
        ensures failed_takes_none { OnSourceFault result (Consumes (Some self.old.left) (Some self.new.left) []) }
        ensures never_falls { self.old.faults ≤ self.new.faults }

        // When it ends and when it fails, and how much it gives where it does neither.
        ensures ends { (result ≡ Took.End) ↔ (self.old.left ≡ []) }
        ensures fails { (result ≡ Took.Failed) ↔ ((0 < length self.old.left) × (self.old.until_fault ≡ Some 0)) }
        ensures how_many { IfTaken result (λ n. n ≡ before_fault self.old.until_fault (min (length into.old) (length self.old.left))) }
        ensures unfailing { IsNone self.old.until_fault → self.new.faults ≡ self.old.faults }

        // What it makes of the buffer and of the source.
        ensures buffer { IfTaken result (λ n. into.new ≡ take n self.old.left ++ drop n into.old) }
        ensures after { IfTaken result (λ n. self.new ≡ after_taking self.old n) }
        ensures after_end { OnEnd result (self.new ≡ self.old) }
        ensures after_fault { OnSourceFault result (self.new ≡ after_source_fault self.old) }
    {
        let left = self.bytes.len() - self.place;
        if left == 0 {
            return Took::End;
        }
        let taken = passing(self.until_fault, into.len().min(left));
        if taken == 0 {
            self.faults = risen(self.faults);
            return Took::Failed;
        }
        copy_front(&self.bytes[self.place..], into, taken);
        self.place += taken;
        self.until_fault = nearer(self.until_fault, taken);
        Took::Some(taken)
    }
}

/// Copies `len` bytes from the front of one slice to the front of the other.
fn copy_front(from: &[u8], into: &mut [u8], len: usize)
    requires there { len ≤ length from.now }
    requires room { len ≤ length into.old }
    ensures front { take len into.new ≡ take len from.now }
    ensures whole { into.new ≡ take len from.now ++ drop len into.old }
{
    into[..len].copy_from_slice(&from[..len]);
}

//! Where the segments of a log begin. The segments lie one after the other in one row of bytes: so room for bytes is room for
//! any events, however they are cut.

ghost use Rattle.std.specs.Prelude.{◌≡◌, ◌<◌, ◌≤◌, ◌+◌, ◌-◌, ◌∷◌, ◌++◌, [], false, List, length, get_or, nat_le, slice_get, MatchOption, OnOk};
ghost use Rattle.base_values.specs.declared.event.RowEvent.{RowEvent as Event};
ghost use Rattle.server_log.specs.Encodings.{encoded};
ghost use Rattle.server_log.specs.Logs.{all_bytes, segment_limit, IsCut};

use std::alloc::{AllocError, Global};
use std::marker::Model;

/// How many bytes a segment may have that isn't of one event alone.
const SEGMENT_LIMIT: usize = 65_536;

/// Where each segment begins. Contracts see besides for how many more there is room.
#[derive(Drop)]
pub(crate) struct Segments {
    starts: Vec<usize>,
}

impl Model for Segments {
    ghost use Rattle.std.specs.Prelude.{◌-◌, vec_len, vec_capacity};
    ghost use Rattle.server_log.specs.Logs.{StoredSegments};

    ghost Value = { StoredSegments };

    ghost view = { λ s. record { starts = s.starts.items; room = vec_capacity s.starts - vec_len s.starts } };
}

/// Whether the last of the segments that begin at these places and end there takes so many bytes more.
fn takes(starts: &[usize], end: usize, size: usize) -> bool
    ensures { MatchOption (slice_get starts.now (length starts.now - 1)) (result ≡ false) (λ start. result ≡ nat_le (end - start + size) segment_limit) }
{
    match starts.last() {
        Some(start) => end.saturating_sub(*start).saturating_add(size) <= SEGMENT_LIMIT,
        None => false,
    }
}

impl Segments {
    /// No segment.
    pub(crate) fn new(alloc: Global) -> Segments
        ensures { result.starts ≡ [] }
    {
        Segments {
            starts: Vec::new(alloc),
        }
    }

    /// Makes room for `n` more segments.
    pub(crate) fn reserve(&mut self, n: usize) -> Result<(), AllocError>
        ensures starts { self.new.starts ≡ self.old.starts }
        ensures ok { OnOk result (n ≤ self.new.room) }
        ensures room { self.old.room ≤ self.new.room }
    {
        self.starts.reserve(n)
    }

    /// An event of `size` bytes comes after all others, at `end`: into the last segment, or into a new one.
    pub(crate) fn add(&mut self, end: usize, size: usize)
        requires { 1 ≤ self.old.room }
        ensures cut { (events : List Event) (event : Event) → IsCut events self.old.starts → end ≡ length (all_bytes events) → size ≡ length (encoded event) → IsCut (events ++ event ∷ []) self.new.starts }
        ensures room { self.old.room ≤ self.new.room + 1 }
    {
        if takes(self.starts.as_slice(), end, size) {
            return;
        }
        self.starts.push_reserved(end);
    }

    /// How many segments there are.
    pub(crate) fn len(&self) -> usize
        ensures { result ≡ length self.now.starts }
    {
        self.starts.len()
    }

    /// Where a segment begins and where it ends, where all end there.
    pub(crate) fn range(&self, n: usize, end: usize) -> (usize, usize)
        requires { n < length self.now.starts }
        ensures start { result.0 ≡ get_or self.now.starts n 0 }
        ensures next { n + 1 < length self.now.starts → result.1 ≡ get_or self.now.starts (n + 1) 0 }
        ensures last { length self.now.starts ≤ n + 1 → result.1 ≡ end }
    {
        let start = self.starts[n];
        if n + 1 < self.starts.len() {
            (start, self.starts[n + 1])
        } else {
            (start, end)
        }
    }
}

//! Spans of a key's values, as row locks and chunks take them.

ghost use Rattle.std.specs.Prelude.{◌≡◌, IfOk};

use crate::duplicate::Duplicate;
use crate::value::Key;
use std::alloc::AllocError;

/// One end of a span.
#[derive(Drop)]
pub enum Bound {
    /// The span ends at this key and leaves it out.
    Open(Key),
    /// The span ends at this key and has it.
    Closed(Key),
    /// The span has no end on this side.
    Free,
}

/// The keys between two ends.
#[derive(Drop)]
pub struct Span {
    /// The lower end.
    pub low: Bound,
    /// The upper end.
    pub high: Bound,
}

impl Duplicate for Bound {
    fn copy(&self) -> Result<Bound, AllocError> {
        Ok(match self {
            Bound::Open(end) => Bound::Open(end.copy()?),
            Bound::Closed(end) => Bound::Closed(end.copy()?),
            Bound::Free => Bound::Free,
        })
    }
}

impl Duplicate for Span {
    fn copy(&self) -> Result<Span, AllocError> {
        Ok(Span {
            low: self.low.copy()?,
            high: self.high.copy()?,
        })
    }
}

impl Span {
    ghost use Rattle.base_values.specs.Spans.{point, has, meets};

    /// The span of one key.
    pub fn point(key: Key) -> Result<Span, AllocError>
        ensures { IfOk result (λ span. span ≡ point key) }
    {
        Ok(Span {
            low: Bound::Closed(key.copy()?),
            high: Bound::Closed(key),
        })
    }

    /// Whether the key lies in the span.
    #[tactic(auto, unfolding(crate::specs::Spans::has))]
    pub fn has(&self, key: &Key) -> bool
        ensures { result ≡ has self.now key.now }
    {
        self.low.is_below(key) && self.high.is_above(key)
    }

    /// Whether the ends of the two spans leave room for a common key. Whether one lies there is not asked: between
    /// the open ends 5 and 6 is room.
    #[tactic(auto, unfolding(crate::specs::Spans::meets))]
    pub fn meets(&self, other: &Span) -> bool
        ensures { result ≡ meets self.now other.now }
    {
        self.low.leaves_room(&self.high)
            && self.low.leaves_room(&other.high)
            && other.low.leaves_room(&self.high)
            && other.low.leaves_room(&other.high)
    }
}

impl Bound {
    ghost use Rattle.base_values.specs.Spans.{above, below, leave_room};

    /// Whether a span with this lower end may have the key.
    fn is_below(&self, key: &Key) -> bool
        ensures { result ≡ above self.now key.now }
    {
        match self {
            Bound::Open(end) => end.cmp(key).is_lt(),
            Bound::Closed(end) => end.cmp(key).is_le(),
            Bound::Free => true,
        }
    }

    /// Whether a span with this upper end may have the key.
    fn is_above(&self, key: &Key) -> bool
        ensures { result ≡ below self.now key.now }
    {
        match self {
            Bound::Open(end) => key.cmp(end).is_lt(),
            Bound::Closed(end) => key.cmp(end).is_le(),
            Bound::Free => true,
        }
    }

    /// Whether there is room between this lower end and an upper one.
    pub fn leaves_room(&self, high: &Bound) -> bool
        ensures { result ≡ leave_room self.now high.now }
    {
        match self {
            Bound::Free => true,
            Bound::Open(low) => match high {
                Bound::Free => true,
                Bound::Open(high) | Bound::Closed(high) => low.cmp(high).is_lt(),
            },
            Bound::Closed(low) => match high {
                Bound::Free => true,
                Bound::Open(high) => low.cmp(high).is_lt(),
                Bound::Closed(high) => low.cmp(high).is_le(),
            },
        }
    }
}

//! A list whose copies share its items.

ghost use Rattle.std.specs.Prelude.{◌≡◌, ◌==◌, ◌<◌, ◌^◌, length, IfOk};
ghost use Rattle.std.specs.Iterator.Runs.{EveryRun, ItemsMapTo};
ghost use Rattle.std.specs.Slice.Iter.{iter_rest, iter_steps};
ghost use Rattle.std.specs.Cmp.Lexicographic.{pointwise, slice_cmp, slice_partial_cmp, lists_per, lists_po, lists_agrees, lists_ties};
ghost use Rattle.std.proofs.lemmas.Cmp.{lists_equiv, lists_total};

use crate::duplicate::Duplicate;
use crate::sequence::{Sequence, copy_of};
use std::alloc::{AllocError, Global};
use std::cmp::Ordering;
use std::marker::Model;
use std::slice::Iter;
use std::sync::ArcSlice;

/// Items in order, which don't change. A copy shares them, so it takes no memory of its own.
pub struct Shared<T> {
    items: ArcSlice<T>,
}

// By hand, so that crates above prove it as one call.
impl<T: Drop> Drop for Shared<T> {
    fn drop(self) {
        let Shared { items } = self;
        drop(items);
    }
}

impl<T> Model for Shared<T> {
    ghost use Rattle.std.specs.Prelude.{List};
    ghost use Rattle.std.specs.Arc.{arc_slice_items};

    ghost Value = { List T };

    ghost view = { λ s. arc_slice_items s.items };
}

impl<T: Drop> Shared<T> {
    /// The items of a vector.
    pub fn from_vec(items: Vec<T>) -> Result<Shared<T>, AllocError>
        ensures { IfOk result (λ shared. shared ≡ items.items) }
    {
        Ok(Shared {
            items: ArcSlice::from_vec(items)?,
        })
    }

    /// The items of a sequence.
    pub fn from_sequence(items: Sequence<T>) -> Result<Shared<T>, AllocError>
        ensures { IfOk result (λ shared. shared ≡ items) }
    {
        Shared::from_vec(items.into_vec())
    }
}

impl<T> Shared<T> {
    /// How many items there are.
    pub fn len(&self) -> usize
        ensures { result ≡ length self.now }
    {
        self.items.len()
    }

    /// Whether there is no item.
    pub fn is_empty(&self) -> bool
        ensures { result ≡ (length self.now == 0) }
    {
        self.items.len() == 0
    }

    /// The items as a slice.
    pub fn as_slice(&self) -> &[T]
        ensures { result.now ≡ self.now }
    {
        self.items.as_slice()
    }

    /// The items one by one.
    pub fn iter(&self) -> Iter<'_, T>
        ensures items { iter_rest result ≡ self.now }
        ensures few { length (iter_rest result) < 2 ^ 64 }
        ensures runs { EveryRun (iter_steps {A = T}) (λ p. ItemsMapTo p (λ item. item.now) (iter_rest p.from)) }
    {
        self.items.as_slice().iter()
    }
}

impl<T: Duplicate> Shared<T> {
    /// Copies of its items, to be changed.
    pub fn to_sequence(&self, alloc: Global) -> Result<Sequence<T>, AllocError>
        ensures { IfOk result (λ items. items ≡ self.now) }
    {
        Ok(Sequence::from_vec(copy_of(alloc, self.items.as_slice())?))
    }
}

impl<'a, T> IntoIterator for &'a Shared<T> {
    type Item = &'a T;

    type IntoIter = Iter<'a, T>;

    ghost into_iter_gives = { λ s r. (iter_rest r ≡ s.now) × (length (iter_rest r) < 2 ^ 64) × EveryRun (iter_steps {A = T}) (λ p. ItemsMapTo p (λ item. item.now) (iter_rest p.from)) };

    fn into_iter(self) -> Iter<'a, T> {
        self.items.as_slice().iter()
    }
}

impl<T: Drop> Duplicate for Shared<T> {
    fn copy(&self) -> Result<Shared<T>, AllocError> {
        Ok(Shared {
            items: self.items.clone()?,
        })
    }
}

impl<T: PartialEq> PartialEq for Shared<T> {
    ghost eq = { pointwise T.eq };

    ghost laws = { lists_per T.laws };

    fn eq(&self, other: &Shared<T>) -> bool {
        self.items.as_slice() == other.items.as_slice()
    }
}

impl<T: Eq> Eq for Shared<T> {
    ghost laws = { lists_equiv T.Eq.laws };
}

impl<T: PartialOrd> PartialOrd for Shared<T> {
    ghost partial_cmp = { slice_partial_cmp T.partial_cmp };

    ghost laws = { lists_po T.PartialOrd.laws };

    fn partial_cmp(&self, other: &Shared<T>) -> Option<Ordering> {
        self.items.as_slice().partial_cmp(&other.items.as_slice())
    }
}

/// Item by item: the first two that differ decide, else the shorter list comes first.
impl<T: Ord> Ord for Shared<T> {
    ghost cmp = { slice_cmp T.cmp };

    ghost total = { lists_total T.total };

    ghost matches_partial_cmp = { λ a b. lists_agrees T.matches_partial_cmp a b };

    ghost matches_eq = { λ a b. lists_ties T.cmp T.matches_eq a b };

    fn cmp(&self, other: &Shared<T>) -> Ordering {
        self.items.as_slice().cmp(&other.items.as_slice())
    }
}

//! The order of values and of keys, so that keys can be a map's, and which of them are equal.

ghost use Rattle.std.specs.Prelude.{◌≡◌, Some, refl};
ghost use Rattle.std.specs.Cmp.{partial_equiv_from_equiv};
ghost use Rattle.std.specs.Cmp.Lexicographic.{pointwise, slice_cmp, slice_partial_cmp};
ghost use Rattle.std.specs.Ordering.{eq_by_cmp, as_partial_cmp};
ghost use Rattle.std.proofs.lemmas.Cmp.{eq_by_cmp_equiv, lists_equiv, lists_total};
ghost use Rattle.base_values.specs.KeyOrder.{rank, compare_values, compare_keys};
ghost use Rattle.base_values.specs.ValueOrder.{values_total, values_partial};

use crate::sequence::Sequence;
use crate::value::{Key, Value};
use std::cmp::Ordering;

impl PartialEq for Value {
    ghost eq = { eq_by_cmp compare_values };

    ghost laws = { partial_equiv_from_equiv (eq_by_cmp_equiv values_total) };

    fn eq(&self, other: &Value) -> bool {
        self.cmp(other).is_eq()
    }
}

impl Eq for Value {
    ghost laws = { eq_by_cmp_equiv values_total };
}

impl PartialOrd for Value {
    ghost partial_cmp = { as_partial_cmp compare_values };

    ghost laws = { values_partial };

    fn partial_cmp(&self, other: &Value) -> Option<Ordering> {
        Some(self.cmp(other))
    }
}

impl Ord for Value {
    ghost cmp = { compare_values };

    ghost total = { values_total };

    ghost matches_partial_cmp = { λ _ _. refl };

    ghost matches_eq = { λ _ _. refl };

    #[tactic(auto, unfolding(crate::specs::KeyOrder::compare_values))]
    fn cmp(&self, other: &Value) -> Ordering {
        match (self, other) {
            (Value::Num(a), Value::Num(b)) => a.cmp(b),
            (Value::Text(a), Value::Text(b)) => a.as_str().cmp(b.as_str()),
            (Value::Blob(a), Value::Blob(b)) => a.as_slice().cmp(&b.as_slice()),
            // By kind first: so the order is total, and keys can be those of a map. Keys of one table have one kind a
            // column.
            _ => rank(self).cmp(&rank(other)),
        }
    }
}

/// The place of the value's kind among the kinds.
fn rank(value: &Value) -> u8
    ensures { result ≡ rank value.now }
{
    match value {
        Value::Null => 0,
        Value::Num(_) => 1,
        Value::Text(_) => 2,
        Value::Blob(_) => 3,
    }
}

/// Which of two keys comes first. Their first columns count first.
pub fn compare(a: &Key, b: &Key) -> Ordering
    ensures { result ≡ compare_keys a.now b.now }
{
    a.cmp(b)
}

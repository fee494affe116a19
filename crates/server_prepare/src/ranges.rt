//! The spans that comparisons leave.

ghost use Rattle.std.specs.Prelude.{◌≡◌, ◌∷◌, [], if◌then◌else◌, IfOk};
ghost use Rattle.std.specs.Ordering.{is_gt};
ghost use Rattle.base_values.specs.KeyOrder.{compare_keys};
ghost use Rattle.server_model.specs.Checks.{inner_low, inner_high, span_of, both_spans, whole, spans_together};

use base_script::{Comparison, Sign};
use base_values::{Bound, Duplicate, Key, Sequence, Shared, Span, Value};
use std::alloc::{AllocError, Global};

/// All keys.
pub fn whole() -> Span
    ensures { result ≡ whole }
{
    Span {
        low: Bound::Free,
        high: Bound::Free,
    }
}

/// Of two lower ends the one that leaves less.
fn inner_low(a: Bound, b: Bound) -> Bound
    ensures { result ≡ inner_low a b }
{
    match a {
        Bound::Free => b,
        Bound::Closed(a) => match b {
            Bound::Free => Bound::Closed(a),
            Bound::Closed(b) => Bound::Closed(greater(a, b)),
            Bound::Open(b) => {
                if a.cmp(&b).is_gt() {
                    Bound::Closed(a)
                } else {
                    Bound::Open(b)
                }
            }
        },
        Bound::Open(a) => match b {
            Bound::Free => Bound::Open(a),
            Bound::Closed(b) => {
                if b.cmp(&a).is_gt() {
                    Bound::Closed(b)
                } else {
                    Bound::Open(a)
                }
            }
            Bound::Open(b) => Bound::Open(greater(a, b)),
        },
    }
}

/// Of two upper ends the one that leaves less.
fn inner_high(a: Bound, b: Bound) -> Bound
    ensures { result ≡ inner_high a b }
{
    match a {
        Bound::Open(a) => match b {
            Bound::Open(b) => Bound::Open(smaller(a, b)),
            Bound::Closed(b) => {
                if a.cmp(&b).is_gt() {
                    Bound::Closed(b)
                } else {
                    Bound::Open(a)
                }
            }
            Bound::Free => Bound::Open(a),
        },
        Bound::Closed(a) => match b {
            Bound::Open(b) => {
                if b.cmp(&a).is_gt() {
                    Bound::Closed(a)
                } else {
                    Bound::Open(b)
                }
            }
            Bound::Closed(b) => Bound::Closed(smaller(a, b)),
            Bound::Free => Bound::Closed(a),
        },
        Bound::Free => b,
    }
}

/// The greater of two keys.
fn greater(a: Key, b: Key) -> Key
    ensures { result ≡ (if is_gt (compare_keys b a) then b else a) }
{
    if b.cmp(&a).is_gt() { b } else { a }
}

/// The smaller of two keys.
fn smaller(a: Key, b: Key) -> Key
    ensures { result ≡ (if is_gt (compare_keys a b) then b else a) }
{
    if a.cmp(&b).is_gt() { b } else { a }
}

/// The keys that one comparison leaves.
fn span_of(sign: Sign, key: Key) -> Span
    ensures { result ≡ span_of sign key }
{
    let (low, high) = match sign {
        Sign::Less => (Bound::Free, Bound::Open(key)),
        Sign::AtMost => (Bound::Free, Bound::Closed(key)),
        Sign::More => (Bound::Open(key), Bound::Free),
        Sign::AtLeast => (Bound::Closed(key), Bound::Free),
    };
    Span { low, high }
}

/// The keys that two spans have in common.
fn both_spans(a: Span, b: Span) -> Span
    ensures { result ≡ both_spans a b }
{
    Span {
        low: inner_low(a.low, b.low),
        high: inner_high(a.high, b.high),
    }
}

fn key_of_value(alloc: Global, value: &Value) -> Result<Key, AllocError>
    ensures { IfOk result (λ key. key ≡ value.now ∷ []) }
{
    let mut key = Sequence::new(alloc);
    key.push(value.copy()?)?;
    Shared::from_sequence(key)
}

/// The keys that comparisons leave together. The grammar has at most two.
pub fn spans_together(
    alloc: Global,
    comparisons: &[Comparison],
    values: &[Value],
) -> Result<Span, AllocError>
    ensures { IfOk result (λ span. span ≡ spans_together comparisons.now values.now) }
{
    let Some((comparison, comparisons)) = comparisons.split_first() else {
        return Ok(whole());
    };
    let Some((value, values)) = values.split_first() else {
        return Ok(whole());
    };
    let span = span_of(comparison.sign, key_of_value(alloc, value)?);
    Ok(both_spans(span, spans_together(alloc, comparisons, values)?))
}

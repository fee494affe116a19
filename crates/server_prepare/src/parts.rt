//! The names and the values of what a statement sets, and of what it compares.

ghost use Rattle.std.specs.Prelude.{◌≡◌, map, IfOk};

use base_script::{Comparison, Set};
use base_values::{Duplicate, Names, Sequence, Values};
use std::alloc::{AllocError, Global};

/// The columns that are set.
pub fn set_columns(alloc: Global, sets: &[Set]) -> Result<Names, AllocError>
    ensures { IfOk result (λ names. names ≡ map (λ set. set.column) sets.now) }
{
    let mut names = Sequence::new(alloc);
    for set in sets {
        names.push(set.column.copy()?)?;
    }
    Ok(names)
}

/// What they are set to.
pub fn set_values(alloc: Global, sets: &[Set]) -> Result<Values, AllocError>
    ensures { IfOk result (λ values. values ≡ map (λ set. set.value) sets.now) }
{
    let mut values = Sequence::new(alloc);
    for set in sets {
        values.push(set.value.copy()?)?;
    }
    Ok(values)
}

/// The columns that are compared.
pub fn compared_columns(alloc: Global, comparisons: &[Comparison]) -> Result<Names, AllocError>
    ensures { IfOk result (λ names. names ≡ map (λ comparison. comparison.column) comparisons.now) }
{
    let mut names = Sequence::new(alloc);
    for comparison in comparisons {
        names.push(comparison.column.copy()?)?;
    }
    Ok(names)
}

/// What they are compared with.
pub fn compared_values(alloc: Global, comparisons: &[Comparison]) -> Result<Values, AllocError>
    ensures { IfOk result (λ values. values ≡ map (λ comparison. comparison.value) comparisons.now) }
{
    let mut values = Sequence::new(alloc);
    for comparison in comparisons {
        values.push(comparison.value.copy()?)?;
    }
    Ok(values)
}

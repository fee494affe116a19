//! What an ALTER makes of rows.

ghost use Rattle.std.specs.Prelude.{◌≡◌};
ghost use Rattle.base_values.specs.StoredValues.{stores};
ghost use Rattle.base_values.specs.RowConversion.ConvertedRows.{source, Fits, converted_row};
ghost use Rattle.base_values.specs.Faults.{Answers};

use crate::row_conversion::conversion_fault::{ConversionFault, UnfitAt};
use crate::row_conversion::map::{MapColumn, Origin};
use crate::{Row, Sequence, Shared, StoreFault, Value, store};
use std::alloc::Global;

/// What a new column gets from a row before it stores it: the old value, or the added default. The caller lends a null for a row
/// without the old place.
pub fn source<'a>(origin: &'a Origin, row: &'a [Value], null: &'a Value) -> &'a Value
    requires { null.now ≡ Value.Null }
    ensures { result.now ≡ source origin.now row.now }
{
    match origin {
        Origin::Old(place) => row.get(*place).unwrap_or(null),
        Origin::Added(value) => value,
    }
}

fn value_of(
    alloc: Global,
    column: usize,
    new: &MapColumn,
    row: &[Value],
) -> Result<Value, ConversionFault>
    ensures { Fits column result (stores (source new.now.origin row.now) new.now.kind new.now.nullable) }
{
    let null = Value::Null;
    match store(
        alloc,
        source(&new.origin, row, &null),
        new.kind,
        new.nullable,
    ) {
        Ok(value) => Ok(value),
        Err(StoreFault::Refused(unfit)) => Err(ConversionFault::Refused(UnfitAt { column, unfit })),
        Err(StoreFault::Memory) => Err(ConversionFault::Memory),
    }
}

/// What the new columns store of a row, or the first that refuses.
pub fn converted_row(
    alloc: Global,
    map: &[MapColumn],
    row: &[Value],
) -> Result<Row, ConversionFault>
    ensures { Answers (λ row. row) result (converted_row map.now row.now) }
{
    let mut made = Sequence::new(alloc);
    let mut column = 0;
    for new in map {
        let value = value_of(alloc, column, new, row)?;
        made.push(value)?;
        column += 1;
    }
    Ok(Shared::from_sequence(made)?)
}

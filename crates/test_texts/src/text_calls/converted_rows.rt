//! What an altered table's columns store of a row.

use crate::text_calls::values::reported_row;
use base_values::row_conversion::{
    ColumnMap, ConversionFault, MapColumn, Origin, UnfitAt, converted_row,
};
use base_values::{Row, Sequence, Shared, Text};
use std::alloc::Global;
use test_lines::{CallFault, kind_of, place_of, row_of, value_of};

/// A column that may not be null, as `TINYINT from 1` or `INT = 7`.
fn column_of(alloc: Global, text: &str) -> Result<MapColumn, CallFault> {
    let (kind, origin) = match text.split_once(" = ") {
        Some((kind, value)) => (kind, Origin::Added(value_of(alloc, value)?)),
        None => {
            let (kind, place) = text.split_once(" from ").ok_or(CallFault::Unread)?;
            (kind, Origin::Old(place_of(place)?))
        }
    };
    Ok(MapColumn {
        kind: kind_of(kind)?,
        nullable: false,
        origin,
    })
}

fn map_of(alloc: Global, text: &str) -> Result<ColumnMap, CallFault> {
    let mut map = Sequence::new(alloc);
    for column in text.split("; ") {
        map.push(column_of(alloc, column)?)?;
    }
    Ok(Shared::from_sequence(map)?)
}

/// The first column that refuses, and the number.
fn reported_unfit(alloc: Global, unfit: UnfitAt) -> Result<Text, CallFault> {
    let mut output = Text::new(alloc);
    output.push_number(unfit.column as i128)?;
    output.push_str(" refuses ")?;
    output.push_number(i128::from(unfit.unfit.number()))?;
    Ok(output)
}

fn reported_converted_row(alloc: Global, map: &ColumnMap, row: &Row) -> Result<Text, CallFault> {
    match converted_row(alloc, map.as_slice(), row.as_slice()) {
        Ok(converted_row) => reported_row(alloc, &converted_row),
        Err(ConversionFault::Refused(unfit)) => reported_unfit(alloc, unfit),
        Err(ConversionFault::Memory) => Err(CallFault::Memory),
    }
}

/// A row converted, as of `TINYINT from 1; INT = 7: 300, 5`; or the first column that refuses, and the number.
pub fn converted_row_of(alloc: Global, input: &str) -> Result<Text, CallFault> {
    let (map, row) = input.split_once(": ").ok_or(CallFault::Unread)?;
    let map = map_of(alloc, map)?;
    let row = row_of(alloc, row)?;
    reported_converted_row(alloc, &map, &row)
}

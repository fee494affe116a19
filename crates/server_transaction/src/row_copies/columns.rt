//! Which columns take a converted row as it is.

ghost use Rattle.std.specs.Prelude.{◌≡◌, ◌↔◌, IsTrue};
ghost use Rattle.proof_journals.specs.Ghost.Statements.{SameColumns};

use base_values::Kind;
use base_values::gho_schema::{Column, Schema};
use base_values::row_conversion::MapColumn;

/// Whether two kinds are one.
fn is_same_kind(kind: Kind, other: Kind) -> bool
    ensures { IsTrue result ↔ (kind ≡ other) }
{
    match (kind, other) {
        (
            Kind::Int { bytes, unsigned },
            Kind::Int {
                bytes: other_bytes,
                unsigned: other_unsigned,
            },
        ) => bytes == other_bytes && unsigned == other_unsigned,
        (Kind::VarChar(limit), Kind::VarChar(other_limit)) => limit == other_limit,
        (Kind::VarBinary(limit), Kind::VarBinary(other_limit)) => limit == other_limit,
        _ => false,
    }
}

/// Whether a table's column stores just what the map's column stores.
fn is_same_column(column: &Column, new: &MapColumn) -> bool
    ensures { IsTrue result ↔ ((column.now.kind ≡ new.now.kind) × (column.now.nullable ≡ new.now.nullable)) }
{
    is_same_kind(column.kind, new.kind) && column.nullable == new.nullable
}

/// Whether the table's columns are the map's, one by one. If so, the table stores a row that the map made as it is.
pub fn takes_as_is(map: &[MapColumn], into: &Schema) -> bool
    ensures { IsTrue result ↔ SameColumns into.now.columns map.now }
{
    let mut rest = into.columns.as_slice();
    for new in map {
        let Some((column, others)) = rest.split_first() else {
            return false;
        };
        if !is_same_column(column, new) {
            return false;
        }
        rest = others;
    }
    rest.is_empty()
}

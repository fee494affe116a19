//! Locks on the values of unique keys.

ghost use Rattle.std.specs.Prelude.{◌≡◌, ◌++◌, OnOk, IfOk};
ghost use Rattle.base_values.specs.GhoSchema.Rows.{key_of};
ghost use Rattle.server_model.specs.Needs.{lock_on, point_lock, points_from, points, points_of};

use base_values::gho_schema::{Index, Schema, key_of};
use base_values::{Duplicate, Row, Span, Value};
use server_locks::row_locks::{Lock, LockSet};
use server_model::Reach;
use std::alloc::{AllocError, Global};
use table_store::has_no_null;

/// A lock on what is reached of a table.
pub fn lock_on(schema: &Schema, exclusive: bool, reach: &Reach) -> Result<Lock, AllocError>
    ensures { IfOk result (λ lock. lock ≡ lock_on schema.now exclusive reach.now) }
{
    Ok(Lock {
        table: schema.name.copy()?,
        key: reach.key,
        span: reach.span.copy()?,
        exclusive,
    })
}

/// Adds an exclusive lock on the row's value of a key, unless a part of it is null.
fn push_point(
    alloc: Global,
    into: &mut LockSet,
    schema: &Schema,
    place: usize,
    index: &Index,
    row: &[Value],
) -> Result<(), AllocError>
    ensures { OnOk result (into.new ≡ into.old ++ point_lock schema.now place (key_of index.now.places row.now)) }
{
    let places = index.places.as_slice();
    if !has_no_null(places, row) {
        return Ok(());
    }
    let span = Span::point(key_of(alloc, places, row)?)?;
    into.push(lock_on(schema, true, &Reach { key: place, span })?)
}

/// Adds exclusive locks on the row's values of these unique keys.
#[tactic(auto, using(crate::proofs::StatementWork::Pieces::points_more), unfolding(server_model::specs::Needs::points_from))]
fn push_each(
    alloc: Global,
    into: &mut LockSet,
    schema: &Schema,
    uniques: &[Index],
    row: &[Value],
) -> Result<(), AllocError>
    ensures { OnOk result (into.new ≡ into.old ++ points_from schema.now 0 uniques.now row.now) }
{
    let mut place = 0;
    for index in uniques {
        push_point(alloc, into, schema, place, index, row)?;
        place += 1;
    }
    Ok(())
}

/// Adds exclusive locks on the row's values of all unique keys.
pub fn push_points(
    alloc: Global,
    into: &mut LockSet,
    schema: &Schema,
    row: &[Value],
) -> Result<(), AllocError>
    ensures { OnOk result (into.new ≡ into.old ++ points schema.now row.now) }
{
    push_each(alloc, into, schema, schema.uniques.as_slice(), row)
}

/// Adds exclusive locks on the values of all unique keys that rows have.
pub fn push_points_of(
    alloc: Global,
    into: &mut LockSet,
    schema: &Schema,
    rows: &[Row],
) -> Result<(), AllocError>
    ensures { OnOk result (into.new ≡ into.old ++ points_of schema.now rows.now) }
{
    for row in rows {
        push_points(alloc, into, schema, row.as_slice())?;
    }
    Ok(())
}

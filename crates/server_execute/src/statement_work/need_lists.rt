//! The row locks that a statement's work needs.

ghost use Rattle.std.specs.Prelude.{◌≡◌, ◌++◌, ◌∷◌, [], true, false, IfOk};
ghost use Rattle.server_model.specs.Needs.{lock_on, points, points_of, needs};
ghost use Rattle.server_execute.specs.FoundWork.{met_by, made_by};

use crate::found_work::FoundWork;
use crate::statement_work::locks::{lock_on, push_points, push_points_of};
use base_values::gho_schema::Schema;
use base_values::{Row, Sequence};
use server_locks::row_locks::LockSet;
use server_model::{Reach, Work};
use server_seen::SeenTable;
use std::alloc::{AllocError, Global};

/// The locks of a new row.
fn needs_of_row(alloc: Global, schema: &Schema, row: &Row) -> Result<LockSet, AllocError>
    ensures { IfOk result (λ locks. locks ≡ points schema.now row.now) }
{
    let mut locks = Sequence::new(alloc);
    push_points(alloc, &mut locks, schema, row.as_slice())?;
    Ok(locks)
}

/// The locks of a new row, and of those that it displaces.
fn needs_of_replace(
    alloc: Global,
    schema: &Schema,
    row: &Row,
    displaced: &[Row],
) -> Result<LockSet, AllocError>
    ensures { IfOk result (λ locks. locks ≡ points schema.now row.now ++ points_of schema.now displaced.now) }
{
    let mut locks = needs_of_row(alloc, schema, row)?;
    push_points_of(alloc, &mut locks, schema, displaced)?;
    Ok(locks)
}

/// The lock on what is reached, and those of the rows there.
fn needs_of_rows(
    alloc: Global,
    schema: &Schema,
    reach: &Reach,
    met: &[Row],
) -> Result<LockSet, AllocError>
    ensures { IfOk result (λ locks. locks ≡ lock_on schema.now true reach.now ∷ points_of schema.now met.now) }
{
    let mut locks = Sequence::new(alloc);
    locks.push(lock_on(schema, true, reach)?)?;
    push_points_of(alloc, &mut locks, schema, met)?;
    Ok(locks)
}

/// The lock on what is reached, and those of the rows there, as they are and as they will be.
fn needs_of_update(
    alloc: Global,
    schema: &Schema,
    reach: &Reach,
    met: &[Row],
    made: &[Row],
) -> Result<LockSet, AllocError>
    ensures { IfOk result (λ locks. locks ≡ lock_on schema.now true reach.now ∷ (points_of schema.now met.now ++ points_of schema.now made.now)) }
{
    let mut locks = needs_of_rows(alloc, schema, reach, met)?;
    push_points_of(alloc, &mut locks, schema, made)?;
    Ok(locks)
}

/// The lock on what a SELECT reaches.
fn needs_of_select(alloc: Global, schema: &Schema, reach: &Reach) -> Result<LockSet, AllocError>
    ensures { IfOk result (λ locks. locks ≡ lock_on schema.now false reach.now ∷ []) }
{
    let mut locks = Sequence::new(alloc);
    locks.push(lock_on(schema, false, reach)?)?;
    Ok(locks)
}

/// The row locks that a statement's work needs, by the rows that it meets and makes.
#[tactic(auto, unfolding(server_model::specs::Needs::needs))]
pub fn needs(alloc: Global, seen: &SeenTable<'_>, found: &FoundWork) -> Result<LockSet, AllocError>
    requires met { found.now.met ≡ met_by seen.now.schema seen.now.rows found.now.work }
    requires made { found.now.made ≡ made_by found.now.work found.now.met }
    ensures { IfOk result (λ locks. locks ≡ needs seen.now.schema seen.now.rows found.now.work) }
{
    let schema = seen.schema();
    let met = found.met.as_slice();
    let made = found.made.as_slice();
    match &found.work {
        Work::Refuse(_) => Ok(Sequence::new(alloc)),
        Work::Insert(row) | Work::Copy(row) => needs_of_row(alloc, schema, row),
        Work::Replace(row) => needs_of_replace(alloc, schema, row, met),
        Work::Delete(reach) => needs_of_rows(alloc, schema, reach, met),
        Work::Update { reach, .. } => needs_of_update(alloc, schema, reach, met, made),
        Work::Select { reach, .. } => needs_of_select(alloc, schema, reach),
    }
}

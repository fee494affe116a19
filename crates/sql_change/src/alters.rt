//! The schema that the clauses of an ALTER leave.

ghost use Rattle.std.specs.Prelude.{◌≡◌, option_map, IfOk};
ghost use Rattle.std.specs.List.{slice_get};
ghost use Rattle.base_values.specs.SchemaRules.Reasons.{first_reason};
ghost use Rattle.base_values.specs.SchemaRules.Valid.{IsValid};
ghost use Rattle.sql_change.specs.AlteredSchema.{step, steps, is_origin, same_columns, keeps_key, result_reasons, result_of, altered};
ghost use Rattle.base_values.specs.Faults.{Answers};
ghost use Rattle.sql_change.specs.AlteredSoFar.{start, Stands};

use crate::additions::added;
use crate::changes::changed;
use crate::code::{AlterCode, AlterFault};
use crate::drops::dropped;
use crate::index::{indexed, unindexed};
use crate::mapping::map_of;
use crate::renames::renamed;
use crate::so_far::AlteredSoFar;
use base_values::gho_schema::{Index, Schema, are_not_null, clustered_key};
use base_values::row_conversion::{Clause, Clauses, ColumnMap};
use std::alloc::Global;

#[tactic(auto, unfolding(crate::specs::AlteredSchema::step))]
fn step(
    alloc: Global,
    approve: bool,
    standing: &AlteredSoFar,
    clause: &Clause,
) -> Result<AlteredSoFar, AlterFault>
    requires { Stands standing.now }
    ensures { Answers (λ standing. standing) result (step approve standing.now clause.now) }
{
    match clause {
        Clause::Add {
            column,
            column_position,
        } => added(alloc, standing, column, column_position),
        Clause::Drop(name) => dropped(alloc, standing, name),
        Clause::Rename { old, new } => renamed(alloc, approve, standing, old, new),
        Clause::Change {
            old,
            column,
            column_position,
        } => { changed(alloc, approve, standing, old, column, column_position) }
        Clause::AddIndex { name, columns } => indexed(alloc, standing, name, columns.as_slice()),
        Clause::DropIndex(name) => unindexed(alloc, standing, name),
    }
}

fn steps(
    alloc: Global,
    approve: bool,
    start: AlteredSoFar,
    clauses: &[Clause],
) -> Result<AlteredSoFar, AlterFault>
    requires { Stands start }
    ensures said { Answers (λ standing. standing) result (steps approve start clauses.now) }
    ensures stands { IfOk result Stands }
{
    let mut standing = start;
    for clause in clauses {
        standing = step(alloc, approve, &standing, clause)?;
    }
    Ok(standing)
}

fn is_origin(origins: &[Option<usize>], place: usize, before: usize) -> bool
    ensures { result ≡ is_origin (slice_get origins.now place) before }
{
    match origins.get(place) {
        Some(Some(old)) => *old == before,
        _ => false,
    }
}

/// Whether the columns at these places are, one by one, the old columns at the others.
fn same_columns(origins: &[Option<usize>], places: &[usize], old: &[usize]) -> bool
    ensures { result ≡ same_columns origins.now places.now old.now }
{
    if places.len() != old.len() {
        return false;
    }
    for (i, place) in places.iter().enumerate() {
        if !is_origin(origins, *place, old[i]) {
            return false;
        }
    }
    true
}

fn keeps_key(standing: &AlteredSoFar, old: Option<&Index>, new: Option<&Index>) -> bool
    ensures { result ≡ keeps_key standing.now (option_map (λ index. index.now) old.entry) (option_map (λ index. index.now) new.entry) }
{
    match (old, new) {
        (Some(old), Some(new)) => {
            let places = new.places.as_slice();
            same_columns(standing.origins.as_slice(), places, old.places.as_slice())
                && are_not_null(standing.schema.columns.as_slice(), places)
        }
        _ => false,
    }
}

fn result_reason(old: &Schema, standing: &AlteredSoFar) -> Option<AlterCode>
    ensures { result ≡ first_reason (result_reasons old.now standing.now) }
{
    let schema = &standing.schema;
    if schema.columns.is_empty() {
        Some(AlterCode::AllColumnsDropped)
    } else if !keeps_key(standing, clustered_key(old), clustered_key(schema)) {
        Some(AlterCode::ClusteredKeyChange)
    } else {
        None
    }
}

fn result_of(
    alloc: Global,
    old: &Schema,
    standing: AlteredSoFar,
) -> Result<(Schema, ColumnMap), AlterFault>
    requires { Stands standing }
    ensures { Answers (λ new. new) result (result_of old.now standing) }
{
    match result_reason(old, &standing) {
        Some(code) => Err(AlterFault::Refused(code)),
        None => {
            let columns = standing.schema.columns.as_slice();
            let map = map_of(alloc, columns, standing.origins.as_slice())?;
            Ok((standing.schema, map))
        }
    }
}

/// The schema that the clauses leave, and where the values of its columns come from. With `approve` columns may get
/// other names.
#[tactic(auto, unfolding(crate::specs::AlteredSchema::altered))]
pub fn altered(
    alloc: Global,
    schema: &Schema,
    clauses: &Clauses,
    approve: bool,
) -> Result<(Schema, ColumnMap), AlterFault>
    requires { IsValid schema.now }
    ensures { Answers (λ new. new) result (altered approve schema.now clauses.now) }
{
    let start = AlteredSoFar::start(alloc, schema)?;
    let standing = steps(alloc, approve, start, clauses.as_slice())?;
    result_of(alloc, schema, standing)
}

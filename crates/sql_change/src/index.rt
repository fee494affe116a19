//! ADD INDEX and DROP INDEX.

ghost use Rattle.std.specs.Prelude.{◌≡◌, ◌<◌, ◌++◌, length, option_to_list, IfOk, IfSome, OnOk};
ghost use Rattle.std.specs.List.{filter_map, list_all};
ghost use Rattle.base_values.specs.SchemaRules.Reasons.{first_reason};
ghost use Rattle.base_values.specs.Faults.{Answers};
ghost use Rattle.sql_change.specs.Columns.{column_place, has_column};
ghost use Rattle.sql_change.specs.IndexClauses.{key_names, first_column, index_name, are_columns, index_reasons, index_of, with_index, indexed_as, indexed, is_named, index_place, is_clustered, without_unique, without_index, unindexed};

use crate::code::{AlterCode, AlterFault};
use crate::columns::{column_named, column_place, has_column};
use crate::so_far::{AlteredSoFar, copied, removed};
use base_values::gho_schema::{Column, Index, Indexes, Places, Schema, clustered_place, same_name};
use base_values::schema_rules::{free_name, is_among};
use base_values::{Duplicate, Name, Names, Sequence, Shared};
use std::alloc::{AllocError, Global};

const INDEX_LIMIT: usize = 8;

fn push_name(names: &mut Names, name: &Option<Name>) -> Result<(), AllocError>
    ensures { OnOk result (names.new ≡ names.old ++ option_to_list name.now) }
{
    match name {
        Some(name) => names.push(name.copy()?),
        None => Ok(()),
    }
}

fn push_names(names: &mut Names, indexes: &[Index]) -> Result<(), AllocError>
    ensures { OnOk result (names.new ≡ names.old ++ filter_map (λ index. index.name) indexes.now) }
{
    for index in indexes {
        push_name(names, &index.name)?;
    }
    Ok(())
}

#[tactic(auto, unfolding(crate::specs::IndexClauses::key_names))]
fn key_names(alloc: Global, schema: &Schema) -> Result<Names, AllocError>
    ensures { IfOk result (λ names. names ≡ key_names schema.now) }
{
    let mut names = Sequence::new(alloc);
    push_names(&mut names, schema.uniques.as_slice())?;
    push_names(&mut names, schema.indexes.as_slice())?;
    Ok(names)
}

#[tactic(auto, unfolding(crate::specs::IndexClauses::first_column))]
fn first_column(alloc: Global, columns: &[Column], names: &[Name]) -> Result<Name, AllocError>
    ensures { IfOk result (λ name. name ≡ first_column columns.now names.now) }
{
    match names {
        [] => Name::new(alloc, ""),
        [name, ..] => match column_named(columns, name) {
            Some((_, column)) => column.name.copy(),
            None => Name::new(alloc, ""),
        },
    }
}

fn index_name(
    alloc: Global,
    schema: &Schema,
    names: &[Name],
    written: &Option<Name>,
) -> Result<Name, AllocError>
    ensures { IfOk result (λ name. name ≡ index_name schema.now names.now written.now) }
{
    match written {
        Some(name) => name.copy(),
        None => {
            let taken = key_names(alloc, schema)?;
            let base = first_column(alloc, schema.columns.as_slice(), names)?;
            free_name(alloc, taken.as_slice(), base.as_str())
        }
    }
}

fn are_all_columns(columns: &[Column], names: &[Name]) -> bool
    ensures { result ≡ list_all (has_column columns.now) names.now }
{
    names.iter().all(|name| has_column(columns, name))
}

fn are_columns(columns: &[Column], names: &[Name]) -> bool
    ensures { result ≡ are_columns columns.now names.now }
{
    !names.is_empty() && are_all_columns(columns, names)
}

fn index_reason(
    alloc: Global,
    schema: &Schema,
    names: &[Name],
    name: &Name,
) -> Result<Option<AlterCode>, AllocError>
    ensures { IfOk result (λ reason. reason ≡ first_reason (index_reasons schema.now names.now name.now)) }
{
    let taken = key_names(alloc, schema)?;
    Ok(if !are_columns(schema.columns.as_slice(), names) {
        Some(AlterCode::UnknownName)
    } else if is_among(taken.as_slice(), name.as_str()) {
        Some(AlterCode::RepeatedName)
    } else if schema.indexes.len() >= INDEX_LIMIT {
        Some(AlterCode::Scope)
    } else {
        None
    })
}

fn push_place(
    places: &mut Sequence<usize>,
    columns: &[Column],
    name: &Name,
) -> Result<(), AllocError>
    ensures { OnOk result (places.new ≡ places.old ++ option_to_list (column_place columns.now name.now)) }
{
    match column_place(columns, name) {
        Some(place) => places.push(place),
        None => Ok(()),
    }
}

fn places_of(alloc: Global, columns: &[Column], names: &[Name]) -> Result<Places, AllocError>
    ensures { IfOk result (λ places. places ≡ filter_map (column_place columns.now) names.now) }
{
    let mut places = Sequence::new(alloc);
    for name in names {
        push_place(&mut places, columns, name)?;
    }
    Shared::from_sequence(places)
}

fn with_keys(
    alloc: Global,
    standing: &AlteredSoFar,
    uniques: Indexes,
    indexes: Indexes,
) -> Result<AlteredSoFar, AllocError>
    ensures { IfOk result (λ new. new ≡ record standing.now { schema = record standing.now.schema { uniques = uniques; indexes = indexes } }) }
{
    let schema = &standing.schema;
    Ok(AlteredSoFar {
        schema: Schema {
            name: schema.name.copy()?,
            columns: schema.columns.copy()?,
            uniques,
            indexes,
            comment: schema.comment.copy()?,
            start: schema.start,
        },
        origins: copied(alloc, standing.origins.as_slice())?,
    })
}

fn with_index(
    alloc: Global,
    standing: &AlteredSoFar,
    index: Index,
) -> Result<AlteredSoFar, AllocError>
    ensures { IfOk result (λ new. new ≡ with_index standing.now index) }
{
    let mut indexes = standing.schema.indexes.to_sequence(alloc)?;
    indexes.push(index)?;
    let uniques = standing.schema.uniques.copy()?;
    with_keys(alloc, standing, uniques, Shared::from_sequence(indexes)?)
}

fn indexed_as(
    alloc: Global,
    standing: &AlteredSoFar,
    names: &[Name],
    name: Name,
) -> Result<AlteredSoFar, AlterFault>
    ensures { Answers (λ standing. standing) result (indexed_as standing.now names.now name) }
{
    match index_reason(alloc, &standing.schema, names, &name)? {
        Some(code) => Err(AlterFault::Refused(code)),
        None => {
            let places = places_of(alloc, standing.schema.columns.as_slice(), names)?;
            let index = Index {
                name: Some(name),
                places,
            };
            Ok(with_index(alloc, standing, index)?)
        }
    }
}

/// The table with an index more.
#[tactic(auto, unfolding(crate::specs::IndexClauses::indexed))]
pub fn indexed(
    alloc: Global,
    standing: &AlteredSoFar,
    written: &Option<Name>,
    names: &[Name],
) -> Result<AlteredSoFar, AlterFault>
    ensures { Answers (λ standing. standing) result (indexed standing.now written.now names.now) }
{
    let name = index_name(alloc, &standing.schema, names, written)?;
    indexed_as(alloc, standing, names, name)
}

fn is_named(name: &Name, own: &Option<Name>) -> bool
    ensures { result ≡ is_named name.now own.now }
{
    match own {
        Some(own) => same_name(own.as_str().as_bytes(), name.as_str().as_bytes()),
        None => false,
    }
}

#[tactic(auto, unfolding(crate::specs::IndexClauses::index_place))]
fn index_place(indexes: &[Index], name: &Name) -> Option<usize>
    ensures place { result ≡ index_place indexes.now name.now }
    ensures within { IfSome result (λ place. place < length indexes.now) }
{
    indexes.iter().position(|index| is_named(name, &index.name))
}

fn is_clustered(clustered: Option<usize>, place: usize) -> bool
    ensures { result ≡ is_clustered clustered place }
{
    match clustered {
        Some(clustered) => clustered == place,
        None => false,
    }
}

/// The table without a key or an index.
#[tactic(auto, unfolding(crate::specs::IndexClauses::unindexed))]
pub fn unindexed(
    alloc: Global,
    standing: &AlteredSoFar,
    name: &Name,
) -> Result<AlteredSoFar, AlterFault>
    ensures { Answers (λ standing. standing) result (unindexed standing.now name.now) }
{
    let schema = &standing.schema;
    match index_place(schema.uniques.as_slice(), name) {
        Some(place) => {
            if is_clustered(clustered_place(schema), place) {
                return Err(AlterFault::Refused(AlterCode::ClusteredKeyChange));
            }
            let uniques = removed(schema.uniques.to_sequence(alloc)?, place);
            let uniques = Shared::from_sequence(uniques)?;
            Ok(with_keys(alloc, standing, uniques, schema.indexes.copy()?)?)
        }
        None => match index_place(schema.indexes.as_slice(), name) {
            Some(place) => {
                let indexes = removed(schema.indexes.to_sequence(alloc)?, place);
                let indexes = Shared::from_sequence(indexes)?;
                Ok(with_keys(alloc, standing, schema.uniques.copy()?, indexes)?)
            }
            None => Err(AlterFault::Refused(AlterCode::UnknownName)),
        },
    }
}

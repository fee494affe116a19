//! The schema that a table as it is written declares.

ghost use Rattle.std.specs.Prelude.{◌≡◌, ◌+◌, ◌++◌, not, ◌&&◌, ◌||◌, nat_lt, length, map, filter, count_by, is_none, IfOk, OnOk};
ghost use Rattle.std.specs.List.{list_all, list_any};
ghost use Rattle.base_values.specs.Faults.{Answers};
ghost use Rattle.base_values.specs.SchemaRules.Reasons.{first_reason};
ghost use Rattle.sql_create.specs.DeclaredSchema.{column_names, size_reasons, are_known, name_reasons, nullable_of, declared_column, declared_columns, key_index, primary_index, schema_of, clustered, built, declared_parts, declared};
ghost use Rattle.base_values.specs.SchemaRules.Names.{is_among};
ghost use Rattle.base_values.specs.SchemaRules.Limits.{is_column_name};

use crate::auto_column::counting;
use crate::keys::{NamedKeys, named_keys};
use crate::parts::{Parts, parts_of};
use crate::written::{TableOptions, WrittenColumn, WrittenKey, WrittenTable};
use base_values::gho_schema::{Column, Columns, Index, Indexes, Schema, clustered_place};
use base_values::schema_rules::{
    defaults_fit, is_among, is_column_name, is_reserved, is_table_name, names_differ, places_of,
    stored_default,
};
use base_values::tool_names::is_tool_name;
use base_values::{Chars, Duplicate, Name, Names, Sequence, Shared, because};
use sql_grammar::{SchemaCode, SchemaFault};
use std::alloc::{AllocError, Global};

const COLUMN_LIMIT: usize = 64;

const KEY_LIMIT: usize = 8;

fn column_names(alloc: Global, columns: &[WrittenColumn]) -> Result<Names, AllocError>
    ensures { IfOk result (λ names. names ≡ column_names columns.now) }
{
    let mut names = Sequence::new(alloc);
    for column in columns {
        names.push(column.name.copy()?)?;
    }
    Ok(names)
}

fn are_column_names(columns: &[WrittenColumn]) -> bool
    ensures { result ≡ list_all (λ column. is_column_name column.name) columns.now }
{
    columns
        .iter()
        .all(|column| is_column_name(column.name.as_str()))
}

fn are_over_limit(some: usize, more: usize) -> bool
    ensures { result ≡ nat_lt 8 (some + more) }
{
    some > KEY_LIMIT || more > KEY_LIMIT - some
}

fn unique_count(keys: &[WrittenKey]) -> usize
    ensures { result ≡ count_by (λ key. key.is_unique) keys.now }
{
    keys.iter().filter(|key| key.is_unique).count()
}

fn plain_count(keys: &[WrittenKey]) -> usize
    ensures { result ≡ count_by (λ key. not key.is_unique) keys.now }
{
    keys.iter().filter(|key| !key.is_unique).count()
}

fn are_too_many_keys(parts: &Parts) -> bool
    ensures { result ≡ (nat_lt 8 (length parts.now.primaries + count_by (λ key. key.is_unique) parts.now.keys) || nat_lt 8 (count_by (λ key. not key.is_unique) parts.now.keys)) }
{
    let keys = parts.keys.as_slice();
    are_over_limit(parts.primaries.len(), unique_count(keys)) || plain_count(keys) > KEY_LIMIT
}

fn size_reason(
    alloc: Global,
    migrated: &str,
    name: &str,
    parts: &Parts,
) -> Result<Option<SchemaCode>, AllocError>
    ensures { IfOk result (λ reason. reason ≡ first_reason (size_reasons migrated.now name.now parts.now)) }
{
    let is_tool = is_tool_name(migrated, name);
    Ok(if !(is_table_name(is_tool, name) && are_column_names(parts.columns.as_slice())) {
        Some(SchemaCode::NameTooLong)
    } else if is_reserved(is_tool, name) {
        Some(SchemaCode::ReservedName)
    } else if parts.columns.len() > COLUMN_LIMIT {
        Some(SchemaCode::TooManyColumns)
    } else if are_too_many_keys(parts) {
        Some(SchemaCode::TooManyKeys)
    } else {
        None
    })
}

fn are_known(names: &[Name], columns: &[Name]) -> bool
    ensures { result ≡ are_known names.now columns.now }
{
    columns
        .iter()
        .all(|column| is_among(names, column.as_str()))
}

fn are_keys_known(names: &[Name], keys: &[WrittenKey]) -> bool
    ensures { result ≡ list_all (λ key. are_known names.now key.text.columns) keys.now }
{
    keys.iter()
        .all(|key| are_known(names, key.text.columns.as_slice()))
}

fn are_primaries_known(names: &[Name], primaries: &[Names]) -> bool
    ensures { result ≡ list_all (are_known names.now) primaries.now }
{
    primaries
        .iter()
        .all(|columns| are_known(names, columns.as_slice()))
}

fn are_all_known(names: &[Name], primaries: &[Names], keys: &[WrittenKey]) -> bool
    ensures { result ≡ (list_all (are_known names.now) primaries.now && list_all (λ key. are_known names.now key.text.columns) keys.now) }
{
    are_primaries_known(names, primaries) && are_keys_known(names, keys)
}

fn name_reason(names: &[Name], primaries: &[Names], named: &NamedKeys) -> Option<SchemaCode>
    ensures { result ≡ first_reason (name_reasons names.now primaries.now named.now) }
{
    if !names_differ(names) || primaries.len() > 1 || !names_differ(named.names.as_slice()) {
        Some(SchemaCode::RepeatedName)
    } else if !are_all_known(names, primaries, named.keys.as_slice()) {
        Some(SchemaCode::UnknownKeyColumn)
    } else {
        None
    }
}

fn is_primary(primaries: &[Names], name: &Name) -> bool
    ensures { result ≡ list_any (λ names. is_among names name.now) primaries.now }
{
    primaries
        .iter()
        .any(|names| is_among(names.as_slice(), name.as_str()))
}

fn nullable_of(primaries: &[Names], column: &WrittenColumn) -> bool
    ensures { result ≡ nullable_of primaries.now column.now }
{
    !is_primary(primaries, &column.name) && column.attributes.plain.nullable.unwrap_or(true)
}

#[tactic(auto, unfolding(crate::specs::DeclaredSchema::declared_column))]
fn declared_column(
    alloc: Global,
    primaries: &[Names],
    column: &WrittenColumn,
) -> Result<Column, SchemaFault>
    ensures { Answers (λ column. column) result (declared_column primaries.now column.now) }
{
    let nullable = nullable_of(primaries, column);
    let written = &column.attributes.plain.default;
    let stored = stored_default(alloc, column.kind, nullable, written);
    let default = because(stored, |_| SchemaCode::BadDefault)?;
    Ok(Column {
        name: column.name.copy()?,
        kind: column.kind,
        nullable,
        default,
        auto: column.attributes.plain.auto,
    })
}

fn declared_columns(
    alloc: Global,
    primaries: &[Names],
    columns: &[WrittenColumn],
) -> Result<Columns, SchemaFault>
    ensures { Answers (λ columns. columns) result (declared_columns primaries.now columns.now) }
{
    let mut declared = Sequence::new(alloc);
    for column in columns {
        let column = declared_column(alloc, primaries, column)?;
        declared.push(column)?;
    }
    Ok(Shared::from_sequence(declared)?)
}

fn primary_indexes(
    alloc: Global,
    names: &[Name],
    primaries: &[Names],
) -> Result<Sequence<Index>, AllocError>
    ensures { IfOk result (λ indexes. indexes ≡ map (primary_index names.now) primaries.now) }
{
    let mut indexes = Sequence::new(alloc);
    for columns in primaries {
        indexes.push(Index {
            name: None,
            places: places_of(alloc, names, columns.as_slice())?,
        })?;
    }
    Ok(indexes)
}

fn key_index(alloc: Global, names: &[Name], key: &WrittenKey) -> Result<Index, AllocError>
    ensures { IfOk result (λ index. index ≡ key_index names.now key.now) }
{
    Ok(Index {
        name: key.text.name.copy()?,
        places: places_of(alloc, names, key.text.columns.as_slice())?,
    })
}

fn push_uniques(
    alloc: Global,
    indexes: &mut Sequence<Index>,
    names: &[Name],
    keys: &[WrittenKey],
) -> Result<(), AllocError>
    ensures { OnOk result (indexes.new ≡ indexes.old ++ map (key_index names.now) (filter (λ key. key.is_unique) keys.now)) }
{
    for key in keys {
        if key.is_unique {
            indexes.push(key_index(alloc, names, key)?)?;
        }
    }
    Ok(())
}

fn plain_indexes(alloc: Global, names: &[Name], keys: &[WrittenKey]) -> Result<Indexes, AllocError>
    ensures { IfOk result (λ indexes. indexes ≡ map (key_index names.now) (filter (λ key. not key.is_unique) keys.now)) }
{
    let mut indexes = Sequence::new(alloc);
    for key in keys {
        if !key.is_unique {
            indexes.push(key_index(alloc, names, key)?)?;
        }
    }
    Shared::from_sequence(indexes)
}

#[tactic(auto, unfolding(crate::specs::DeclaredSchema::schema_of))]
fn schema_of(
    alloc: Global,
    name: Name,
    comment: Chars,
    names: &[Name],
    primaries: &[Names],
    keys: &[WrittenKey],
    columns: Columns,
) -> Result<Schema, AllocError>
    ensures { IfOk result (λ schema. schema ≡ schema_of name comment names.now primaries.now keys.now columns) }
{
    let mut uniques = primary_indexes(alloc, names, primaries)?;
    push_uniques(alloc, &mut uniques, names, keys)?;
    Ok(Schema {
        name,
        columns,
        uniques: Shared::from_sequence(uniques)?,
        indexes: plain_indexes(alloc, names, keys)?,
        comment,
        start: None,
    })
}

fn clustered(schema: Schema) -> Result<Schema, SchemaFault>
    ensures { Answers (λ schema. schema) result (clustered schema) }
{
    if !defaults_fit(schema.columns.as_slice()) {
        Err(SchemaFault::Refused(SchemaCode::BadDefault))
    } else if clustered_place(&schema).is_none() {
        Err(SchemaFault::Refused(SchemaCode::NoClusteredKey))
    } else {
        Ok(schema)
    }
}

fn built(
    alloc: Global,
    name: Name,
    options: TableOptions,
    names: &[Name],
    primaries: &[Names],
    columns: &[WrittenColumn],
    named: &NamedKeys,
) -> Result<Schema, SchemaFault>
    ensures { Answers (λ schema. schema) result (built name options names.now primaries.now columns.now named.now) }
{
    if let Some(code) = name_reason(names, primaries, named) {
        return Err(SchemaFault::Refused(code));
    }
    let columns = declared_columns(alloc, primaries, columns)?;
    let keys = named.keys.as_slice();
    let TableOptions { comment, start } = options;
    let schema = schema_of(alloc, name, comment, names, primaries, keys, columns)?;
    counting(start, clustered(schema)?)
}

fn declared_parts(
    alloc: Global,
    migrated: &str,
    name: Name,
    options: TableOptions,
    parts: Parts,
) -> Result<Schema, SchemaFault>
    ensures { Answers (λ schema. schema) result (declared_parts migrated.now name options parts) }
{
    match size_reason(alloc, migrated, name.as_str(), &parts)? {
        Some(code) => Err(SchemaFault::Refused(code)),
        None => {
            let Parts {
                columns,
                primaries,
                keys,
            } = parts;
            let columns = columns.as_slice();
            let names = column_names(alloc, columns)?;
            let names = names.as_slice();
            let named = named_keys(alloc, names, keys)?;
            built(
                alloc,
                name,
                options,
                names,
                primaries.as_slice(),
                columns,
                &named,
            )
        }
    }
}

/// The schema that the table declares, as one of a plan that migrates the table of this name.
#[tactic(auto, unfolding(crate::specs::DeclaredSchema::declared))]
pub fn declared(alloc: Global, migrated: &str, table: WrittenTable) -> Result<Schema, SchemaFault>
    ensures { Answers (λ schema. schema) result (declared migrated.now table) }
{
    let WrittenTable {
        name,
        items,
        options,
    } = table;
    let parts = parts_of(alloc, items)?;
    declared_parts(alloc, migrated, name, options, parts)
}

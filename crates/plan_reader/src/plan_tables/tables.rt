//! The tables of a plan.

ghost use Rattle.std.specs.Prelude.{◌≡◌, false, [], ◌∷◌, ◌++◌, map, IfOk, OnOk};
ghost use Rattle.std.specs.List.{AllByRecursion};
ghost use Rattle.table_store.specs.Databases.{database, has_table};
ghost use Rattle.base_values.specs.SchemaRules.Valid.{IsValid};
ghost use Rattle.sql_create.specs.Laws.{ReadSchemasAreValid};
ghost use Rattle.sql_create.specs.CreateText.{schema_at};
ghost use Rattle.plan_keys.specs.PlanKeys.{table_data};
ghost use Rattle.base_values.specs.Faults.{Answers};
ghost use Rattle.plan_reader.specs.PlanTables.Tables.{of_schema, newly_named, table_at, tables_from, tables_of, IsSound};

use crate::plan_tables::fault::{TableFault, TableRefusal};
use crate::plan_tables::rows::read_rows;
use base_values::because;
use base_values::gho_schema::Schema;
use base_values::laws::stored_values_store_again;
use plan_keys::TableKeys;
use sql_create::read_schema;
use sql_grammar::SchemaCode;
use std::alloc::{AllocError, Global};
use table_store::AddFault;
use table_store::laws::put_keeps_tables;
use table_store::paged_tables::Tables;
use table_store::paged_tables::row_pages::Table;

/// The schema that the text of the table of this number declares.
fn schema_of(
    alloc: Global,
    version: u32,
    migrated: &str,
    number: u32,
    create: &str,
) -> Result<Schema, TableFault>
    requires { ReadSchemasAreValid }
    ensures schema { Answers (λ schema. schema) result (of_schema number (schema_at version migrated.now create.now)) }
    ensures valid { IfOk result IsValid }
{
    because(
        read_schema(alloc, create, migrated, version),
        |code| TableRefusal::Schema {
            code,
            table: number,
        },
    )
}

/// The table of this number without rows, where its name didn't come before.
fn newly_named(
    alloc: Global,
    number: u32,
    tables: &Tables,
    schema: Schema,
) -> Result<Table, TableFault>
    ensures table { Answers (λ table. table.table) result (newly_named number (database tables.now) schema) }
    ensures new { IfOk result (λ table. has_table table.table.schema.name (database tables.now) ≡ false) }
{
    if tables.stands(&schema.name) {
        Err(TableFault::Refused(TableRefusal::Schema {
            code: SchemaCode::RepeatedName,
            table: number,
        }))
    } else {
        Ok(Table::new(alloc, schema))
    }
}

/// The table of this number after these tables.
#[tactic(auto, unfolding(crate::specs::PlanTables::Tables::table_at))]
fn table_at(
    alloc: Global,
    version: u32,
    migrated: &str,
    number: u32,
    tables: &Tables,
    keys: &TableKeys<'_>,
) -> Result<Table, TableFault>
    requires { ReadSchemasAreValid }
    ensures table { Answers (λ table. table.table) result (table_at version migrated.now number (database tables.now) (table_data keys.now)) }
    ensures new { IfOk result (λ table. has_table table.table.schema.name (database tables.now) ≡ false) }
{
    let schema = schema_of(alloc, version, migrated, number, keys.create)?;
    let table = newly_named(alloc, number, tables, schema)?;
    read_rows(alloc, number, table, keys.rows.as_slice())
}

/// Adds a table of a new name.
fn add(tables: &mut Tables, table: Table) -> Result<(), AllocError>
    requires { has_table table.table.schema.name (database tables.old) ≡ false }
    ensures { OnOk result (database tables.new ≡ database tables.old ++ table.table ∷ []) }
{
    match tables.add(table) {
        Ok(()) => Ok(()),
        Err(AddFault::Exists) => unreachable!(),
        Err(AddFault::Memory) => Err(AllocError),
    }
}

/// Reads the tables of a plan of this version that migrates the table of this name. That schemas which are read are valid is a law:
/// `law_texts::schemas` proves it.
pub fn read_tables(
    alloc: Global,
    version: u32,
    migrated: &str,
    keys: &[TableKeys<'_>],
) -> Result<Tables, TableFault>
    requires { ReadSchemasAreValid }
    ensures tables { Answers database result (tables_of version migrated.now (map table_data keys.now)) }
    ensures sound { IfOk result (λ tables. AllByRecursion IsSound (database tables)) }
{
    put_keeps_tables();
    stored_values_store_again();
    let mut tables = Tables::new(alloc);
    let mut number: u32 = 1;
    for table_keys in keys {
        let table = table_at(alloc, version, migrated, number, &tables, table_keys)?;
        add(&mut tables, table)?;
        number = number.saturating_add(1);
    }
    Ok(tables)
}

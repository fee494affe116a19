//! A database as plain lists.

ghost use Rattle.std.specs.Prelude.{◌≡◌, IfOk, option_copied};
ghost use Rattle.table_store.specs.Databases.{database, find_table, is_named};

use base_values::gho_schema::Schema;
use base_values::{Duplicate, Name, Row, Rows, Sequence};
use std::alloc::{AllocError, Global};
use std::marker::Model;
use table_store::paged_tables::Tables;
use table_store::paged_tables::row_pages::Table;

/// A table: a schema, and rows.
#[derive(Drop)]
pub struct PlainTable {
    pub(crate) schema: Schema,
    pub(crate) rows: Rows,
}

impl Model for PlainTable {
    ghost use Rattle.table_store.specs.Databases.{TableRows};

    ghost Value = { TableRows };

    ghost view = { λ t. record { schema = t.schema; rows = t.rows } };
}

/// Tables in order.
pub type PlainTables = Sequence<PlainTable>;

impl PlainTable {
    /// A table of this schema and these rows.
    pub fn new(schema: Schema, rows: Rows) -> PlainTable
        ensures { result ≡ record { schema = schema; rows = rows } }
    {
        PlainTable { schema, rows }
    }

    /// What its columns and keys are.
    pub fn schema(&self) -> &Schema
        ensures { result.now ≡ self.now.schema }
    {
        &self.schema
    }

    /// Its rows, in order.
    pub fn rows(&self) -> &[Row]
        ensures { result.now ≡ self.now.rows }
    {
        self.rows.as_slice()
    }
}

impl Duplicate for PlainTable {
    fn copy(&self) -> Result<PlainTable, AllocError> {
        Ok(PlainTable {
            schema: self.schema.copy()?,
            rows: self.rows.copy()?,
        })
    }
}

fn plain_table(alloc: Global, table: &Table) -> Result<PlainTable, AllocError>
    ensures { IfOk result (λ plain. plain ≡ table.now.table) }
{
    Ok(PlainTable {
        schema: table.schema().copy()?,
        rows: table.copied_rows(alloc)?,
    })
}

/// The tables of a server as plain lists.
pub fn plain_tables(alloc: Global, tables: &Tables) -> Result<PlainTables, AllocError>
    ensures { IfOk result (λ plain. plain ≡ database tables.now) }
{
    let mut plain = Sequence::new(alloc);
    for n in 0..tables.len() {
        plain.push(plain_table(alloc, tables.at(n))?)?;
    }
    Ok(plain)
}

/// Whether the table has this name.
pub fn is_named(name: &Name, table: &PlainTable) -> bool
    ensures { result ≡ is_named name.now table.now }
{
    table.schema.name == *name
}

/// The table of this name, where one has it.
pub fn find_table<'a>(name: &Name, tables: &'a [PlainTable]) -> Option<&'a PlainTable>
    ensures { option_copied result ≡ find_table name.now tables.now }
{
    tables.iter().find(|table| is_named(name, table))
}

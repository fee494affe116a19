//! The reader of CREATE TABLE.

ghost use Rattle.base_values.specs.Faults.{Answers};
ghost use Rattle.sql_create.specs.CreateText.{schema_at};

use crate::declarations::declared;
use crate::table::written;
use base_values::gho_schema::Schema;
use sql_grammar::SchemaFault;
use std::alloc::Global;

/// Reads the text of CREATE TABLE of a plan of this version that migrates the table of this name.
#[tactic(auto, unfolding(crate::specs::CreateText::schema_at))]
pub fn read_schema(
    alloc: Global,
    text: &str,
    migrated: &str,
    version: u32,
) -> Result<Schema, SchemaFault>
    ensures { Answers (λ schema. schema) result (schema_at version migrated.now text.now) }
{
    let table = written(alloc, version, text)?;
    declared(alloc, migrated, table)
}

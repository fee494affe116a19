//! The tables that exist before the migration, and its ALTER.

ghost use Rattle.std.specs.Prelude.{◌≡◌, Some, IfOk, map, option_map};
ghost use Rattle.std.specs.List.{AllByRecursion};
ghost use Rattle.sql_change.specs.AlteredSchema.{altered};
ghost use Rattle.sql_alter.specs.AlterText.{alter_at};
ghost use Rattle.table_store.specs.Databases.{database, find_table, has_table};
ghost use Rattle.base_values.specs.SchemaRules.Valid.{IsValid};
ghost use Rattle.sql_create.specs.Laws.{ReadSchemasAreValid};
ghost use Rattle.plan_keys.specs.PlanKeys.{table_data, key_data};
ghost use Rattle.plan_reader.specs.PlanTables.Tables.{tables_of, IsSound};
ghost use Rattle.plan_reader.specs.Openings.{has_left_ghost, is_no_sentry, has_left_old, without_leftovers, migrated_in, opening_of, opening_data};
ghost use Rattle.plan_reader.specs.Refusals.{of_tables, of_alter};
ghost use Rattle.base_values.specs.Faults.{Answers};

use crate::fault::{PlanFault, PlanRefusal};
use crate::plan_tables::read_tables;
use base_values::gho_schema::Schema;
use base_values::row_conversion::Clauses;
use base_values::{Name, because};
use plan_data::{AlteredSchema, MigratedTable, Options};
use plan_keys::PlanKeys;
use sql_alter::read_alter;
use sql_change::altered;
use std::alloc::{AllocError, Global};
use table_store::paged_tables::Tables;
use table_store::paged_tables::row_pages::Table;
use tool_changelog::SENTRY_COMMENT;

/// What exists before the migration, and what the ALTER makes of it.
#[derive(Drop)]
pub struct Opening {
    /// The opening tables, in the plan's order.
    pub tables: Tables,
    /// The clauses of the ALTER.
    pub alter: Clauses,
    /// What the ALTER makes of the migrated table.
    pub new: AlteredSchema,
}

/// The tables, with their rows.
fn tables_of(alloc: Global, keys: &PlanKeys<'_>) -> Result<Tables, PlanFault>
    requires { ReadSchemasAreValid }
    ensures tables { Answers database result (of_tables (tables_of keys.now.version keys.now.texts.table.now (map table_data keys.now.texts.tables.items))) }
    ensures sound { IfOk result (λ tables. AllByRecursion IsSound (database tables)) }
{
    let tables = read_tables(
        alloc,
        keys.version,
        keys.texts.table,
        keys.texts.tables.as_slice(),
    );
    because(tables, PlanRefusal::Tables)
}

/// The table to migrate.
fn migrated_in<'a>(migrated: &Name, tables: &'a Tables) -> Result<&'a Table, PlanFault>
    ensures table { Answers (λ table. table.now.table) result (migrated_in migrated.now (database tables.now)) }
    ensures found { IfOk result (λ table. find_table migrated.now (database tables.now) ≡ Some table.now.table) }
{
    match tables.find(migrated) {
        Some(table) => Ok(table),
        None => Err(PlanFault::Refused(PlanRefusal::NoTable)),
    }
}

/// Whether a new table that an earlier run left exists, and may not be dropped.
fn has_left_ghost(migrated: &MigratedTable, options: Options, tables: &Tables) -> bool
    ensures { result ≡ has_left_ghost migrated.now options (database tables.now) }
{
    tables.stands(migrated.ghost_name()) && !options.initially_drop_ghost_table
}

/// Whether a table exists that is no earlier run's sentry.
#[tactic(auto, unfolding(tool_changelog::specs::ToolTables::sentry_comment))]
fn is_no_sentry(table: Option<&Table>) -> bool
    ensures { result ≡ is_no_sentry (option_map (λ table. table.now.table) table.entry) }
{
    match table {
        None => false,
        // The sentry of an earlier run has the old table's name, and is known by its comment. It may always be dropped.
        Some(table) => table.schema().comment.as_str() != SENTRY_COMMENT,
    }
}

/// Whether an old table that an earlier run left exists, and may not be dropped.
fn has_left_old(migrated: &MigratedTable, options: Options, tables: &Tables) -> bool
    ensures { result ≡ has_left_old migrated.now options (database tables.now) }
{
    is_no_sentry(tables.find(migrated.old_name())) && !options.initially_drop_old_table
}

/// The tool may drop what an earlier run left.
fn without_leftovers(
    migrated: &MigratedTable,
    options: Options,
    tables: &Tables,
) -> Result<(), PlanFault>
    ensures { Answers (λ _. database tables.now) result (without_leftovers migrated.now options (database tables.now)) }
{
    if has_left_ghost(migrated, options, tables) || has_left_old(migrated, options, tables) {
        return Err(PlanFault::Refused(PlanRefusal::Leftover));
    }
    Ok(())
}

/// The clauses of the ALTER.
fn clauses_of(
    alloc: Global,
    version: u32,
    migrated: &Name,
    text: &str,
) -> Result<Clauses, PlanFault>
    ensures { Answers (λ clauses. clauses) result (of_alter (alter_at version migrated.now text.now)) }
{
    because(
        read_alter(alloc, text, migrated, version),
        PlanRefusal::Alter,
    )
}

/// What the clauses make of a schema.
fn altered_of(
    alloc: Global,
    options: Options,
    schema: &Schema,
    clauses: &Clauses,
) -> Result<AlteredSchema, PlanFault>
    requires { IsValid schema.now }
    ensures { Answers (λ new. (new.schema, new.map)) result (of_alter (altered options.approve_renamed_columns schema.now clauses.now)) }
{
    let new = altered(alloc, schema, clauses, options.approve_renamed_columns);
    let (schema, map) = because(new, PlanRefusal::Alter)?;
    Ok(AlteredSchema { schema, map })
}

/// The opening of a plan. That schemas which are read are valid is a law: `law_texts::schemas` proves it.
#[tactic(auto, unfolding(crate::specs::Openings::opening_of))]
pub fn opening_of(
    alloc: Global,
    migrated: &MigratedTable,
    keys: &PlanKeys<'_>,
) -> Result<Opening, PlanFault>
    requires valid { ReadSchemasAreValid }
    requires named { migrated.now ≡ keys.now.texts.table.now }
    ensures opening { Answers opening_data result (opening_of (key_data keys.now)) }
    ensures sound { IfOk result (λ opening. AllByRecursion IsSound (database opening.tables)) }
{
    let tables = tables_of(alloc, keys)?;
    let table = migrated_in(migrated.name(), &tables)?;
    without_leftovers(migrated, keys.options, &tables)?;
    let alter = clauses_of(alloc, keys.version, migrated.name(), keys.texts.alter)?;
    let new = altered_of(alloc, keys.options, table.schema(), &alter)?;
    Ok(Opening { tables, alter, new })
}

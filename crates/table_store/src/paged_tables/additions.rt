//! One table more.

ghost use Rattle.std.specs.Prelude.{◌≡◌, false, [], ◌∷◌, ◌++◌, OnOk, OnErr};
ghost use Rattle.table_store.specs.Databases.{database, has_table};
ghost use Rattle.table_store.specs.PagedTables.PagedDatabases.{stored, AreNamed};

use crate::name_map::NameMap;
use crate::paged_tables::row_pages::Table;
use std::alloc::AllocError;

/// Adds a table of a new name after the others, under its own name.
pub fn add_new(tables: &mut NameMap<Table>, table: Table) -> Result<(), AllocError>
    requires named { AreNamed tables.old }
    requires new { has_table table.table.schema.name (database (stored tables.old.values)) ≡ false }
    ensures ok { OnOk result (tables.new.values ≡ tables.old.values ++ table ∷ []) }
    ensures err { OnErr result (tables.new.values ≡ tables.old.values) }
    ensures named { AreNamed tables.new }
{
    let schema = table.schema();
    let name = tables.copy_name(schema.name.as_str())?;
    tables.add(name, table)
}

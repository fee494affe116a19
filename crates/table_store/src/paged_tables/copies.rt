//! Tables copied.

ghost use Rattle.std.specs.Prelude.{◌≡◌, IfOk};
ghost use Rattle.table_store.specs.Databases.{database};
ghost use Rattle.table_store.specs.PagedTables.PagedDatabases.{stored, AreNamed};

use crate::name_map::NameMap;
use crate::paged_tables::additions::add_new;
use crate::paged_tables::row_pages::Table;
use std::alloc::{AllocError, Global};

/// Copies of tables.
pub fn copied_tables(alloc: Global, tables: &NameMap<Table>) -> Result<NameMap<Table>, AllocError>
    requires { AreNamed tables.now }
    ensures tables { IfOk result (λ copy. database (stored copy.values) ≡ database (stored tables.now.values)) }
    ensures named { IfOk result AreNamed }
{
    let mut copy = NameMap::new(alloc);
    for place in 0..tables.len() {
        let table = tables.at(place);
        add_new(&mut copy, table.copy_table(alloc)?)?;
    }
    Ok(copy)
}

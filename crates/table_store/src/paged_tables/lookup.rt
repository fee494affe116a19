//! Tables found by their names.

ghost use Rattle.std.specs.Prelude.{◌≡◌, not, option_copied, find};
ghost use Rattle.std.specs.List.{prefix_len};
ghost use Rattle.table_store.specs.Databases.{database, has_table, is_named};
ghost use Rattle.table_store.specs.PagedTables.PagedDatabases.{stored, AreNamed};

use crate::name_map::NameMap;
use crate::paged_tables::row_pages::Table;
use base_values::Name;

/// How many tables come before the one of this name.
pub fn place_of(name: &Name, tables: &NameMap<Table>) -> usize
    requires { AreNamed tables.now }
    ensures { result ≡ prefix_len (λ paged. not (is_named name.now paged.table)) tables.now.values }
{
    tables.place_of(name.as_str())
}

/// The table of this name.
pub fn named<'a>(name: &Name, tables: &'a NameMap<Table>) -> Option<&'a Table>
    requires { AreNamed tables.now }
    ensures { option_copied result ≡ find (λ paged. is_named name.now paged.table) tables.now.values }
{
    let place = place_of(name, tables);
    if place < tables.len() {
        Some(tables.at(place))
    } else {
        None
    }
}

/// Whether a table has this name.
pub fn has_name(name: &Name, tables: &NameMap<Table>) -> bool
    requires { AreNamed tables.now }
    ensures { result ≡ has_table name.now (database (stored tables.now.values)) }
{
    named(name, tables).is_some()
}

//! Other names for tables.

ghost use Rattle.std.specs.Prelude.{◌≡◌, ◌≤◌, ◌<◌, ◌+◌, ◌*◌, false, length, slice_get, slice_set, IfOk, IfSome, IfErr, OnOk, OnErr, Ok};
ghost use Rattle.std.specs.String.{string_bytes};
ghost use Rattle.table_store.specs.Databases.{database, has_table, rename_tables, name_stored, spares};
ghost use Rattle.base_values.specs.Faults.{Refuses};
ghost use Rattle.base_values.specs.declared.fault.Fault.TheVariants.{Memory};
ghost use Rattle.table_store.specs.PagedTables.PagedDatabases.{stored, table_names, AreNamed};

use crate::name_map::NameMap;
use crate::paged_tables::lookup::{has_name, place_of};
use crate::paged_tables::row_pages::Table;
use crate::{NotRenamed, Pair, RenameFault};
use base_values::{Duplicate, Name};

/// A table's name twice: as the map finds it, and as its schema has it.
#[derive(Drop)]
struct TableName {
    key: String,
    name: Name,
}

/// Gives the table at this place another name, and answers the one that it had. It takes no memory, but the room for one
/// table.
fn set_name_at(tables: &mut NameMap<Table>, place: usize, name: TableName) -> TableName
    requires within { place < length (stored tables.old.values) }
    requires named { tables.old.names ≡ table_names tables.old.values }
    requires same { string_bytes name.key ≡ name.name }
    requires new { has_table name.name (database (stored tables.old.values)) ≡ false }
    requires room { 0 < tables.old.spare }
    ensures name { IfSome (slice_get (stored tables.old.values) place) (λ old. (result.name ≡ old.table.schema.name) × (stored tables.new.values ≡ slice_set (stored tables.old.values) place (name_stored name.name old))) }
    ensures same { string_bytes result.key ≡ result.name }
    ensures named { tables.new.names ≡ table_names tables.new.values }
    ensures room { tables.old.spare ≤ tables.new.spare + 1 }
{
    let key = tables.rename(place, name.key);
    let table = tables.at_mut(place);
    TableName {
        key,
        name: table.set_name(name.name),
    }
}

/// The name for the map and for the schema.
fn name_twice(tables: &NameMap<Table>, name: &Name) -> Result<TableName, RenameFault>
    ensures name { IfOk result (λ twice. twice.name ≡ name.now) }
    ensures same { IfOk result (λ twice. string_bytes twice.key ≡ twice.name) }
    ensures err { IfErr result (λ fault. fault ≡ Memory) }
{
    Ok(TableName {
        key: tables.copy_name(name.as_str())?,
        name: name.copy()?,
    })
}

/// Renames tables pair by pair; or none, where a pair is refused or memory runs out. Each pair may need the room for two
/// tables: one for its change, and one to undo it.
#[tactic(auto, unfolding(crate::specs::Databases::rename_tables))]
pub fn rename_from(tables: &mut NameMap<Table>, pairs: &[Pair]) -> Result<(), RenameFault>
    requires named { AreNamed tables.old }
    requires room { 2 * length pairs.now ≤ tables.old.spare }
    ensures ok { OnOk result (rename_tables pairs.now (database (stored tables.old.values)) ≡ Ok (database (stored tables.new.values))) }
    ensures fault { IfErr result (λ fault. Refuses fault (rename_tables pairs.now (database (stored tables.old.values)))) }
    ensures err { OnErr result (stored tables.new.values ≡ stored tables.old.values) }
    ensures named { AreNamed tables.new }
    ensures spares { spares (stored tables.new.values) ≡ spares (stored tables.old.values) }
    ensures room { tables.old.spare ≤ tables.new.spare + 2 * length pairs.now }
{
    let Some((pair, others)) = pairs.split_first() else {
        return Ok(());
    };
    if has_name(&pair.new, tables) {
        return Err(RenameFault::Refused(NotRenamed::Exists));
    }
    if !has_name(&pair.old, tables) {
        return Err(RenameFault::Refused(NotRenamed::Missing));
    }
    // Each change is made as its pair comes, and undone where a later pair is refused: so a pair sees the names that
    // earlier ones leave, and a refusal leaves all as it was.
    let name = name_twice(tables, &pair.new)?;
    let place = place_of(&pair.old, tables);
    let old = set_name_at(tables, place, name);
    match rename_from(tables, others) {
        Ok(()) => Ok(()),
        Err(fault) => {
            let _ = set_name_at(tables, place, old);
            Err(fault)
        }
    }
}

//! The migrated table, by its name.

ghost use Rattle.std.specs.Prelude.{◌≡◌, IfOk};
ghost use Rattle.base_values.specs.ToolNames.{ghost_name, log_name, old_name};

use base_values::tool_names::{ghost_name, log_name, old_name};
use base_values::{Duplicate, Name};
use std::alloc::{AllocError, Global};
use std::marker::Model;

/// The migrated table's name. Contracts see that alone. The names of the tool's tables, which follow from it, are made once and kept:
/// calls ask for them again and again. Copies share all four.
pub struct MigratedTable {
    name: Name,
    ghost_table: Name,
    log: Name,
    old: Name,
}

// By hand, so that crates above prove it as one call.
impl Drop for MigratedTable {
    fn drop(self) {
        let MigratedTable {
            name,
            ghost_table,
            log,
            old,
        } = self;
        drop(name);
        drop(ghost_table);
        drop(log);
        drop(old);
    }
}

impl Model for MigratedTable {
    ghost use Rattle.std.specs.Prelude.{ℕ, List};
    ghost use Rattle.plan_data.specs.MigratedTables.{HasNames};

    ghost Value = { List ℕ };

    ghost view = { λ t. t.name };

    ghost invariant = { λ t. HasNames t.name t.ghost_table t.log t.old };
}

impl MigratedTable {
    /// The migrated table of this name.
    pub fn new(alloc: Global, name: Name) -> Result<MigratedTable, AllocError>
        ensures { IfOk result (λ table. table ≡ name) }
    {
        let ghost_table = ghost_name(alloc, &name)?;
        let log = log_name(alloc, &name)?;
        let old = old_name(alloc, &name)?;
        Ok(MigratedTable {
            name,
            ghost_table,
            log,
            old,
        })
    }

    /// Its name.
    pub fn name(&self) -> &Name
        ensures { result.now ≡ self.now }
    {
        &self.name
    }

    /// The name of the new table, until it takes the migrated table's name.
    pub fn ghost_name(&self) -> &Name
        ensures { result.now ≡ ghost_name self.now }
    {
        &self.ghost_table
    }

    /// The name of the changelog.
    pub fn log_name(&self) -> &Name
        ensures { result.now ≡ log_name self.now }
    {
        &self.log
    }

    /// The name of the table from before, once the new one took its name; before that the sentry's.
    pub fn old_name(&self) -> &Name
        ensures { result.now ≡ old_name self.now }
    {
        &self.old
    }
}

impl Duplicate for MigratedTable {
    fn copy(&self) -> Result<MigratedTable, AllocError> {
        Ok(MigratedTable {
            name: self.name.copy()?,
            ghost_table: self.ghost_table.copy()?,
            log: self.log.copy()?,
            old: self.old.copy()?,
        })
    }
}

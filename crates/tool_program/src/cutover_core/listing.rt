//! Which of the tool's tables exist, and which of them are still to be dropped.

ghost use Rattle.std.specs.Prelude.{◌≡◌};
ghost use Rattle.base_values.specs.ToolNames.{ghost_name, log_name, old_name};
ghost use Rattle.tool_program.specs.CutoverCore.Attempts.{is_clear, first_name, without_first, has_name, has_sentry};

use crate::cutover_core::cutover::Leftovers;
use base_values::Name;
use base_values::tool_names::{is_ghost_name, is_log_name, is_old_name};
use plan_data::MigratedTable;
use server_model::TableNames;
use tool_changelog::SENTRY_COMMENT;

/// Whether the new table is listed, by the name that it has before the RENAME.
pub fn lists_new_table(table: &Name, tables: &TableNames) -> bool
    ensures { result ≡ has_name (ghost_name table.now) tables.now }
{
    tables.as_slice().iter().any(|listed| is_ghost_name(table.as_str(), listed.name.as_str()))
}

/// Whether the changelog is listed.
pub fn lists_log(table: &Name, tables: &TableNames) -> bool
    ensures { result ≡ has_name (log_name table.now) tables.now }
{
    tables
        .as_slice()
        .iter()
        .any(|listed| is_log_name(table.as_str(), listed.name.as_str()))
}

/// Whether a table is listed that has the name of the sentry and of the table from before.
pub fn lists_old_table(table: &Name, tables: &TableNames) -> bool
    ensures { result ≡ has_name (old_name table.now) tables.now }
{
    tables
        .as_slice()
        .iter()
        .any(|listed| is_old_name(table.as_str(), listed.name.as_str()))
}

/// Whether the sentry is listed, and no other table of its name.
#[tactic(auto, unfolding(tool_changelog::specs::ToolTables::sentry_comment))]
pub(crate) fn lists_sentry(table: &Name, tables: &TableNames) -> bool
    ensures { result ≡ has_sentry table.now tables.now }
{
    tables.as_slice().iter().any(|listed| {
        is_old_name(table.as_str(), listed.name.as_str())
            && listed.comment.as_str() == SENTRY_COMMENT
    })
}

impl Leftovers {
    /// Whether nothing is left to be dropped.
    pub fn is_clear(self) -> bool
        ensures { result ≡ is_clear self }
    {
        !self.log && !self.new_table && !self.old
    }

    /// The name of the one that is dropped next: the changelog, then the new table, then the old one or the sentry.
    pub fn first_name(self, table: &MigratedTable) -> &Name
        ensures { result.now ≡ first_name table.now self }
    {
        if self.log {
            table.log_name()
        } else if self.new_table {
            table.ghost_name()
        } else {
            table.old_name()
        }
    }

    /// What is left after the drop of the next.
    pub fn without_first(self) -> Leftovers
        ensures { result ≡ without_first self }
    {
        if self.log {
            Leftovers { log: false, ..self }
        } else if self.new_table {
            Leftovers {
                new_table: false,
                ..self
            }
        } else {
            Leftovers { old: false, ..self }
        }
    }
}

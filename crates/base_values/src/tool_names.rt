//! The names of the tool's tables.

ghost use Rattle.std.specs.Prelude.{◌≡◌, ◌++◌, codes, IfOk};
ghost use Rattle.std.specs.Str.{bytes_eq};
ghost use Rattle.base_values.specs.ToolNames.{ghost_name, log_name, old_name, is_tool_name};

use crate::{Name, Text};
use std::alloc::{AllocError, Global};

/// The migrated table's name between a low line and an ending.
fn name_with(alloc: Global, table: &Name, ending: &str) -> Result<Name, AllocError>
    ensures { IfOk result (λ name. name ≡ codes "_" ++ table.now ++ ending.now) }
{
    let mut text = Text::with_capacity(alloc, 1 + table.as_str().len() + ending.len())?;
    text.push_str("_")?;
    text.push_str(table.as_str())?;
    text.push_str(ending)?;
    Name::new(alloc, text.as_str())
}

/// The name of the new table, until it takes the migrated table's name.
#[tactic(auto, unfolding(crate::specs::ToolNames::ghost_name))]
pub fn ghost_name(alloc: Global, table: &Name) -> Result<Name, AllocError>
    ensures { IfOk result (λ name. name ≡ ghost_name table.now) }
{
    name_with(alloc, table, "_gho")
}

/// The name of the changelog.
#[tactic(auto, unfolding(crate::specs::ToolNames::log_name))]
pub fn log_name(alloc: Global, table: &Name) -> Result<Name, AllocError>
    ensures { IfOk result (λ name. name ≡ log_name table.now) }
{
    name_with(alloc, table, "_ghc")
}

/// The name of the table from before, once the new one took its name; before that the sentry's.
#[tactic(auto, unfolding(crate::specs::ToolNames::old_name))]
pub fn old_name(alloc: Global, table: &Name) -> Result<Name, AllocError>
    ensures { IfOk result (λ name. name ≡ old_name table.now) }
{
    name_with(alloc, table, "_del")
}

/// Whether a name is the migrated table's between a low line and an ending.
#[tactic(auto, using(crate::proofs::Prefixes::prefix))]
fn is_name_with(table: &str, ending: &str, name: &str) -> bool
    ensures { result ≡ bytes_eq name.now (codes "_" ++ table.now ++ ending.now) }
{
    let Some(rest) = name.as_bytes().strip_prefix(b"_") else {
        return false;
    };
    match rest.strip_prefix(table.as_bytes()) {
        Some(rest) => *rest == *ending.as_bytes(),
        None => false,
    }
}

/// Whether a table is the new one, as it is named before it takes the migrated table's name.
#[tactic(auto, unfolding(crate::specs::ToolNames::ghost_name))]
pub fn is_ghost_name(table: &str, name: &str) -> bool
    ensures { result ≡ bytes_eq name.now (ghost_name table.now) }
{
    is_name_with(table, "_gho", name)
}

/// Whether a table is the changelog, by its name.
#[tactic(auto, unfolding(crate::specs::ToolNames::log_name))]
pub fn is_log_name(table: &str, name: &str) -> bool
    ensures { result ≡ bytes_eq name.now (log_name table.now) }
{
    is_name_with(table, "_ghc", name)
}

/// Whether a table has the name of the sentry and of the table from before.
#[tactic(auto, unfolding(crate::specs::ToolNames::old_name))]
pub fn is_old_name(table: &str, name: &str) -> bool
    ensures { result ≡ bytes_eq name.now (old_name table.now) }
{
    is_name_with(table, "_del", name)
}

/// Whether a table has one of the tool's three names.
pub fn is_tool_name(table: &str, name: &str) -> bool
    ensures { result ≡ is_tool_name table.now name.now }
{
    is_ghost_name(table, name) || is_log_name(table, name) || is_old_name(table, name)
}

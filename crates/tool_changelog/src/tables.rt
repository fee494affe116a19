//! The schemas of the changelog and of the sentry.

ghost use Rattle.std.specs.Prelude.{◌≡◌, [], ◌∷◌, false, None, IfOk};
ghost use Rattle.tool_changelog.specs.ToolTables.{sentry_comment, not_null, first_is_primary, sentry_schema, log_schema};

use base_values::gho_schema::{Column, Index, Indexes, Schema};
use base_values::tool_names::{log_name, old_name};
use base_values::{Chars, Kind, Name, Shared};
use std::alloc::{AllocError, Global};

/// The comment that tells the sentry from every other table of its name.
pub const SENTRY_COMMENT: &str = "ghost-cut-over-sentry";

fn not_null(alloc: Global, name: &str, kind: Kind) -> Result<Column, AllocError>
    ensures { IfOk result (λ column. column ≡ not_null name.now kind) }
{
    Ok(Column {
        name: Name::new(alloc, name)?,
        kind,
        nullable: false,
        default: None,
        auto: false,
    })
}

/// The PRIMARY KEY on the first column.
fn first_is_primary(alloc: Global) -> Result<Indexes, AllocError>
    ensures { IfOk result (λ indexes. indexes ≡ first_is_primary) }
{
    let index = Index {
        name: None,
        places: Shared::from_vec(vec![in alloc; 0]?)?,
    };
    Shared::from_vec(vec![in alloc; index]?)
}

/// The schema of the sentry: one column, and a comment by which it is known as the tool's.
#[tactic(auto, unfolding(crate::specs::ToolTables::sentry_schema, crate::specs::ToolTables::sentry_comment))]
pub fn sentry_schema(alloc: Global, table: &Name) -> Result<Schema, AllocError>
    ensures { IfOk result (λ schema. schema ≡ sentry_schema table.now) }
{
    let int = Kind::Int {
        bytes: 4,
        unsigned: false,
    };
    let id = not_null(alloc, "id", int)?;
    Ok(Schema {
        name: old_name(alloc, table)?,
        columns: Shared::from_vec(vec![in alloc; id]?)?,
        uniques: first_is_primary(alloc)?,
        indexes: Shared::from_vec(Vec::new(alloc))?,
        comment: Chars::new(alloc, SENTRY_COMMENT)?,
        start: None,
    })
}

/// The schema of the changelog.
#[tactic(auto, unfolding(crate::specs::ToolTables::log_schema))]
pub fn log_schema(alloc: Global, table: &Name) -> Result<Schema, AllocError>
    ensures { IfOk result (λ schema. schema ≡ log_schema table.now) }
{
    let bigint = Kind::Int {
        bytes: 8,
        unsigned: false,
    };
    let id = not_null(alloc, "id", bigint)?;
    let hint = not_null(alloc, "hint", Kind::VarChar(64))?;
    let value = not_null(alloc, "value", Kind::VarChar(255))?;
    Ok(Schema {
        name: log_name(alloc, table)?,
        columns: Shared::from_vec(vec![in alloc; id, hint, value]?)?,
        uniques: first_is_primary(alloc)?,
        indexes: Shared::from_vec(Vec::new(alloc))?,
        comment: Chars::new(alloc, "")?,
        start: None,
    })
}

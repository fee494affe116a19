//! How long names may be, and which names of tables are kept.

ghost use Rattle.std.specs.Prelude.{◌≡◌};
ghost use Rattle.base_values.specs.GhoSchema.Names.{is_kept};
ghost use Rattle.base_values.specs.SchemaRules.Limits.{is_name_length, is_column_name, is_table_name, is_reserved};

use crate::character_count;

const COLUMN_NAME_LIMIT: usize = 64;

const TABLE_NAME_LIMIT: usize = 59;

#[tactic(auto, unfolding(crate::specs::SchemaRules::Limits::is_name_length))]
fn is_name_length(limit: usize, name: &str) -> bool
    ensures { result ≡ is_name_length limit name.now }
{
    let count = character_count(name);
    1 <= count && count <= limit
}

/// Whether a column may have this name.
pub fn is_column_name(name: &str) -> bool
    ensures { result ≡ is_column_name name.now }
{
    is_name_length(COLUMN_NAME_LIMIT, name)
}

/// Whether a table may have this name, by its length.
pub fn is_table_name(is_tool: bool, name: &str) -> bool
    ensures { result ≡ is_table_name is_tool name.now }
{
    is_name_length(
        if is_tool {
            COLUMN_NAME_LIMIT
        } else {
            TABLE_NAME_LIMIT
        },
        name,
    )
}

fn is_kept(name: &[u8]) -> bool
    ensures { result ≡ is_kept name.now }
{
    name.starts_with(b"_")
        && (name.ends_with(b"_gho") || name.ends_with(b"_ghc") || name.ends_with(b"_del"))
}

/// Whether the name is kept for the migration's own tables, and is none of theirs.
pub fn is_reserved(is_tool: bool, name: &str) -> bool
    ensures { result ≡ is_reserved is_tool name.now }
{
    is_kept(name.as_bytes()) && !is_tool
}

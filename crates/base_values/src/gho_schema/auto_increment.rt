//! The AUTO_INCREMENT column.

ghost use Rattle.std.specs.Prelude.{◌≡◌, ◌<◌, length, IfSome};
ghost use Rattle.base_values.specs.GhoSchema.AutoIncrement.{is_widest, auto_place};

use crate::Kind;
use crate::gho_schema::schema::Schema;

/// Whether the kind is BIGINT UNSIGNED, whose numbers a counter doesn't reach.
pub fn is_widest(kind: Kind) -> bool
    ensures { result ≡ is_widest kind }
{
    match kind {
        Kind::Int { bytes, unsigned } => bytes == 8 && unsigned,
        Kind::VarChar(_) | Kind::VarBinary(_) => false,
    }
}

/// The place of the AUTO_INCREMENT column, where there is one.
pub fn auto_place(schema: &Schema) -> Option<usize>
    ensures place { result ≡ auto_place schema.now }
    ensures within { IfSome result (λ place. place < length schema.now.columns) }
{
    schema
        .columns
        .as_slice()
        .iter()
        .position(|column| column.auto)
}

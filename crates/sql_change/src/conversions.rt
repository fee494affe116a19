//! Which kinds a column may be converted to.

ghost use Rattle.std.specs.Prelude.{◌≡◌};
ghost use Rattle.sql_change.specs.Columns.{is_key_conversion, is_conversion};

use base_values::Kind;

/// Whether a column of a unique key may be converted so.
pub fn is_key_conversion(old: Kind, new: Kind) -> bool
    ensures { result ≡ is_key_conversion old new }
{
    match (old, new) {
        (Kind::Int { .. }, Kind::Int { .. }) => true,
        (Kind::VarChar(_), Kind::VarChar(_)) => true,
        (Kind::VarBinary(_), Kind::VarBinary(_)) => true,
        _ => false,
    }
}

/// Whether a column may be converted so.
pub fn is_conversion(old: Kind, new: Kind) -> bool
    ensures { result ≡ is_conversion old new }
{
    match (old, new) {
        (Kind::Int { .. }, _) => true,
        (Kind::VarChar(_), Kind::VarChar(_) | Kind::VarBinary(_)) => true,
        (Kind::VarBinary(_), Kind::VarBinary(_)) => true,
        _ => false,
    }
}

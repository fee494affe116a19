//! How names compare.

ghost use Rattle.std.specs.Prelude.{◌≡◌};
ghost use Rattle.base_values.specs.GhoSchema.Names.{same_name};

/// Whether two texts are one keyword, or one name of a column or a key.
pub fn same_name(name: &[u8], other: &[u8]) -> bool
    ensures { result ≡ same_name name.now other.now }
{
    name.eq_ignore_ascii_case(other)
}

//! Numbers.

ghost use Rattle.std.specs.Prelude.{◌≡◌, ◌++◌, codes, OnOk};
ghost use Rattle.std.specs.Fmt.{decimal};

use base_values::Text;
use std::alloc::AllocError;

/// Adds a number in decimal.
pub fn push_count(into: &mut Text, number: u64) -> Result<(), AllocError>
    ensures { OnOk result (into.new ≡ into.old ++ decimal number) }
{
    into.push_number(i128::from(number))
}

/// Adds a line of a word and a number.
pub fn push_number_line(into: &mut Text, word: &str, number: u64) -> Result<(), AllocError>
    ensures { OnOk result (into.new ≡ into.old ++ word.now ++ decimal number ++ codes "\n") }
{
    into.push_str(word)?;
    push_count(into, number)?;
    into.push_str("\n")
}

//! The versions of a plan, and what each has.

ghost use Rattle.std.specs.Prelude.{◌≡◌};
ghost use Rattle.sql_grammar.specs.Versions.{has_counters, is_auto_increment};

use crate::token::Token;

/// Whether texts of plans of this version have AUTO_INCREMENT.
pub fn has_counters(version: u32) -> bool
    ensures { result ≡ has_counters version }
{
    version == 2
}

/// Whether the word is AUTO_INCREMENT, and texts of plans of this version have it.
pub fn is_auto_increment(version: u32, word: &Token) -> bool
    ensures { result ≡ is_auto_increment version word.now }
{
    word.is_keyword("AUTO_INCREMENT") && has_counters(version)
}

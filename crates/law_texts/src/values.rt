//! That a value which is printed is read again.

ghost use Rattle.base_values.specs.declared.value.Value.{Value};
ghost use Rattle.sql_grammar.specs.WordValues.ReadBack.{IsLiteral, NullIsName, ReadsBack};

use sql_words::{numbers_are_read, printed_bytes_are_read, printed_texts_are_read};

/// What is printed of a text, of bytes, and of a number of at most 38 digits is read back as the one word that stands for it, and a null as the name NULL.
pub fn printed_values_are_read()
    ensures literals { (value : Value) → IsLiteral value → ReadsBack value }
    ensures null { NullIsName }
{
    printed_texts_are_read();
    printed_bytes_are_read();
    numbers_are_read();
}

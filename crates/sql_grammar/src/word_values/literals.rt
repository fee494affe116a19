//! The value that a word stands for.

ghost use Rattle.std.specs.Prelude.{◌≡◌, IfOk};
ghost use Rattle.sql_grammar.specs.WordValues.ReadBack.{word_value};

use base_values::{Chars, Shared, Value};
use sql_words::{Word, WordClass};
use std::alloc::{AllocError, Global};

/// The text, the bytes or the number that the word stands for; none where it is another word.
pub fn literal(alloc: Global, word: &Word<'_>) -> Result<Option<Value>, AllocError>
    ensures { IfOk result (λ found. found ≡ word_value word.now.class word.now.text.now) }
{
    Ok(match word.class {
        WordClass::Text => match word.text_value(alloc)? {
            Some(text) => Some(Value::Text(Chars::from_string(text)?)),
            None => None,
        },
        WordClass::Bytes => match word.bytes_value(alloc)? {
            Some(bytes) => Some(Value::Blob(Shared::from_vec(bytes)?)),
            None => None,
        },
        WordClass::Number => match word.number_value() {
            Some(number) => Some(Value::Num(number)),
            None => None,
        },
        WordClass::Name | WordClass::Quoted | WordClass::Sign => None,
    })
}

//! Literals that borrow their words.

ghost use Rattle.std.specs.Prelude.{◌≡◌, option_map};
ghost use Rattle.sql_grammar.specs.Literals.{literal, null_literal, written_literal};

use base_values::gho_schema::same_name;
use sql_words::{Word, WordClass};

/// A literal as it is written.
#[derive(Clone, Copy)]
pub enum LiteralRef<'a> {
    /// NULL.
    Null,
    /// A whole number.
    Num(i128),
    /// A text: what is between its quotes, with its escapes and doubled quotes.
    Text(&'a str),
    /// Bytes: the hexadecimal digits between the quotes.
    Blob(&'a str),
}

fn null_literal<'a>(text: &'a str) -> Option<LiteralRef<'a>>
    ensures { option_map literal result ≡ null_literal text.now }
{
    if same_name(text.as_bytes(), b"NULL") {
        Some(LiteralRef::Null)
    } else {
        None
    }
}

/// The literal that the word is; none where it is no NULL, number, text or bytes.
pub fn read_literal<'a>(word: &Word<'a>) -> Option<LiteralRef<'a>>
    ensures { option_map literal result ≡ written_literal word.now.class word.now.text.now }
{
    match word.class {
        WordClass::Name => null_literal(word.text),
        WordClass::Number => Some(LiteralRef::Num(word.number_value()?)),
        WordClass::Text => Some(LiteralRef::Text(word.written_text()?)),
        WordClass::Bytes => Some(LiteralRef::Blob(word.written_bytes()?)),
        WordClass::Quoted | WordClass::Sign => None,
    }
}

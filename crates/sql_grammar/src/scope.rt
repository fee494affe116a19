//! Words that the texts may not have, and what they are refused with.

ghost use Rattle.std.specs.Prelude.{◌≡◌};
ghost use Rattle.sql_grammar.specs.Scope.{is_constraint, is_extension, is_fraction_kind, is_time_kind, is_character_kind, is_long_kind, is_text_kind, is_choice_kind, is_shape_kind, is_many_shapes_kind, is_integer_synonym, is_other_kind, is_no_item, begins_no_item, mismatch, in_version};

use crate::code::SchemaCode;
use crate::token::Token;
use crate::versions::has_counters;
use base_values::gho_schema::same_name;

fn is_constraint(word: &[u8]) -> bool
    ensures { result ≡ is_constraint word.now }
{
    same_name(word, b"FOREIGN")
        || same_name(word, b"REFERENCES")
        || same_name(word, b"CHECK")
        || same_name(word, b"GENERATED")
        || same_name(word, b"AS")
}

fn is_extension(word: &[u8]) -> bool
    ensures { result ≡ is_extension word.now }
{
    same_name(word, b"PARTITION") || same_name(word, b"FULLTEXT") || same_name(word, b"SPATIAL")
}

fn is_fraction_kind(word: &[u8]) -> bool
    ensures { result ≡ is_fraction_kind word.now }
{
    same_name(word, b"FLOAT")
        || same_name(word, b"DOUBLE")
        || same_name(word, b"REAL")
        || same_name(word, b"DECIMAL")
        || same_name(word, b"NUMERIC")
        || same_name(word, b"DEC")
        || same_name(word, b"FIXED")
        || same_name(word, b"FLOAT4")
        || same_name(word, b"FLOAT8")
}

fn is_time_kind(word: &[u8]) -> bool
    ensures { result ≡ is_time_kind word.now }
{
    same_name(word, b"DATE")
        || same_name(word, b"TIME")
        || same_name(word, b"DATETIME")
        || same_name(word, b"TIMESTAMP")
        || same_name(word, b"YEAR")
}

fn is_character_kind(word: &[u8]) -> bool
    ensures { result ≡ is_character_kind word.now }
{
    same_name(word, b"CHAR")
        || same_name(word, b"CHARACTER")
        || same_name(word, b"NCHAR")
        || same_name(word, b"NATIONAL")
        || same_name(word, b"NVARCHAR")
        || same_name(word, b"VARCHARACTER")
}

fn is_long_kind(word: &[u8]) -> bool
    ensures { result ≡ is_long_kind word.now }
{
    same_name(word, b"BINARY") || same_name(word, b"LONG")
}

fn is_text_kind(word: &[u8]) -> bool
    ensures { result ≡ is_text_kind word.now }
{
    same_name(word, b"TEXT")
        || same_name(word, b"TINYTEXT")
        || same_name(word, b"MEDIUMTEXT")
        || same_name(word, b"LONGTEXT")
        || same_name(word, b"BLOB")
        || same_name(word, b"TINYBLOB")
        || same_name(word, b"MEDIUMBLOB")
        || same_name(word, b"LONGBLOB")
}

fn is_choice_kind(word: &[u8]) -> bool
    ensures { result ≡ is_choice_kind word.now }
{
    same_name(word, b"ENUM")
        || same_name(word, b"SET")
        || same_name(word, b"BIT")
        || same_name(word, b"BOOL")
        || same_name(word, b"BOOLEAN")
        || same_name(word, b"JSON")
        || same_name(word, b"SERIAL")
}

fn is_shape_kind(word: &[u8]) -> bool
    ensures { result ≡ is_shape_kind word.now }
{
    same_name(word, b"GEOMETRY")
        || same_name(word, b"POINT")
        || same_name(word, b"LINESTRING")
        || same_name(word, b"POLYGON")
        || same_name(word, b"GEOMETRYCOLLECTION")
        || same_name(word, b"GEOMCOLLECTION")
}

fn is_many_shapes_kind(word: &[u8]) -> bool
    ensures { result ≡ is_many_shapes_kind word.now }
{
    same_name(word, b"MULTIPOINT")
        || same_name(word, b"MULTILINESTRING")
        || same_name(word, b"MULTIPOLYGON")
}

fn is_integer_synonym(word: &[u8]) -> bool
    ensures { result ≡ is_integer_synonym word.now }
{
    same_name(word, b"INT1")
        || same_name(word, b"INT2")
        || same_name(word, b"INT3")
        || same_name(word, b"INT4")
        || same_name(word, b"INT8")
        || same_name(word, b"MIDDLEINT")
}

#[tactic(auto, unfolding(crate::specs::Scope::is_other_kind))]
fn is_other_kind(word: &[u8]) -> bool
    ensures { result ≡ is_other_kind word.now }
{
    is_fraction_kind(word)
        || is_time_kind(word)
        || is_character_kind(word)
        || is_long_kind(word)
        || is_text_kind(word)
        || is_choice_kind(word)
        || is_shape_kind(word)
        || is_many_shapes_kind(word)
        || is_integer_synonym(word)
}

/// Whether the word begins no item of a table in any version.
#[tactic(auto, unfolding(crate::specs::Scope::is_no_item))]
fn is_no_item(word: &Token) -> bool
    ensures { result ≡ is_no_item word.now }
{
    let text = word.text.as_str().as_bytes();
    word.is_unquoted() && (is_constraint(text) || is_extension(text))
}

/// Whether the word begins no item of a table in this version, whatever comes after it.
pub fn begins_no_item(version: u32, word: &Token) -> bool
    ensures { result ≡ begins_no_item version word.now }
{
    is_no_item(word) || (word.is_keyword("AUTO_INCREMENT") && !has_counters(version))
}

/// What a text is refused with where these words stand and the first of them doesn't fit.
#[tactic(auto, unfolding(crate::specs::Scope::mismatch))]
pub fn mismatch(words: &[Token]) -> SchemaCode
    ensures { result ≡ mismatch words.now }
{
    match words {
        [] => SchemaCode::Syntax,
        [word, ..] => {
            if is_no_item(word)
                || (word.is_unquoted() && is_other_kind(word.text.as_str().as_bytes()))
            {
                SchemaCode::Scope
            } else if word.is_keyword("AUTO_INCREMENT") {
                SchemaCode::AutoIncrement
            } else {
                SchemaCode::Syntax
            }
        }
    }
}

/// What a text of a plan of this version is refused with: AUTO_INCREMENT where it doesn't fit is out of version 1's scope,
/// and a mistake in version 2.
pub fn in_version(version: u32, code: SchemaCode) -> SchemaCode
    ensures { result ≡ in_version version code }
{
    match code {
        SchemaCode::AutoIncrement => {
            if has_counters(version) {
                SchemaCode::Syntax
            } else {
                SchemaCode::Scope
            }
        }
        other => other,
    }
}

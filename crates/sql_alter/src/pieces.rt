//! The pieces of ALTER TABLE's text.

ghost use Rattle.std.specs.Prelude.{◌≡◌, option_map};
ghost use Rattle.sql_grammar.specs.Attributes.{attribute_at};
ghost use Rattle.sql_grammar.specs.Keys.{key_at};
ghost use Rattle.sql_grammar.specs.Kinds.{kind_at};
ghost use Rattle.sql_grammar.specs.Pieces.{keyword_at, name_at};
ghost use Rattle.base_values.specs.Faults.{Answers};
ghost use Rattle.sql_alter.specs.Pieces.{in_alter, after_column, is_index_word, is_out_of_scope};

use base_values::{Kind, Name, because};
use sql_change::{AlterCode, AlterFault};
use sql_grammar::{Attribute, KeyText, Token, after_keyword};
use std::alloc::Global;

/// What follows this keyword, which has to be the first word.
pub fn keyword_at<'a>(keyword: &str, words: &'a [Token]) -> Result<&'a [Token], AlterFault>
    ensures { Answers (λ rest. rest.now) result (in_alter (keyword_at keyword.now words.now)) }
{
    because(
        sql_grammar::keyword_at(keyword, words),
        |_| AlterCode::Syntax,
    )
}

/// The name at the front, and what follows it.
pub fn name_at(alloc: Global, words: &[Token]) -> Result<(Name, &[Token]), AlterFault>
    ensures { Answers (λ name. (name.0, name.1.now)) result (in_alter (name_at words.now)) }
{
    because(sql_grammar::name_at(alloc, words), |_| AlterCode::Syntax)
}

/// The kind at the front, and what follows it.
pub fn kind_at(words: &[Token]) -> Result<(Kind, &[Token]), AlterFault>
    ensures { Answers (λ kind. (kind.0, kind.1.now)) result (in_alter (kind_at words.now)) }
{
    because(sql_grammar::kind_at(words), |_| AlterCode::Syntax)
}

/// The attribute at the front and what follows it; none where the first word begins none.
pub fn attribute_at(
    alloc: Global,
    version: u32,
    words: &[Token],
) -> Result<Option<(Attribute, &[Token])>, AlterFault>
    ensures { Answers (option_map (λ read. (read.0, read.1.now))) result (in_alter (attribute_at version words.now)) }
{
    because(
        sql_grammar::attribute_at(alloc, version, words),
        |_| AlterCode::Syntax,
    )
}

/// The name and the columns of an index, and what follows them.
pub fn key_at(alloc: Global, words: &[Token]) -> Result<(KeyText, &[Token]), AlterFault>
    ensures { Answers (λ key. (key.0, key.1.now)) result (in_alter (key_at words.now)) }
{
    because(sql_grammar::key_at(alloc, words), |_| AlterCode::Syntax)
}

/// What follows COLUMN, which may be left out.
#[tactic(auto, unfolding(crate::specs::Pieces::after_column))]
pub fn after_column(words: &[Token]) -> &[Token]
    ensures { result.now ≡ after_column words.now }
{
    match after_keyword("COLUMN", words) {
        Some(rest) => rest,
        None => words,
    }
}

/// Whether the word is INDEX or KEY.
pub fn is_index_word(word: &Token) -> bool
    ensures { result ≡ is_index_word word.now }
{
    word.is_keyword("INDEX") || word.is_keyword("KEY")
}

/// Whether the word begins what may be added or dropped in MySQL and not here.
#[tactic(auto, unfolding(crate::specs::Pieces::is_out_of_scope))]
pub fn is_out_of_scope(word: &Token) -> bool
    ensures { result ≡ is_out_of_scope word.now }
{
    word.is_keyword("CONSTRAINT")
        || word.is_keyword("FOREIGN")
        || word.is_keyword("FULLTEXT")
        || word.is_keyword("SPATIAL")
        || word.is_keyword("CHECK")
        || word.is_keyword("PARTITION")
}

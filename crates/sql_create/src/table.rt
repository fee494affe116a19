//! Which texts are CREATE TABLE, and what each writes.

ghost use Rattle.std.specs.Prelude.{◌≡◌, codes};
ghost use Rattle.base_values.specs.Faults.{Answers};
ghost use Rattle.sql_create.specs.Written.{primary_item_at, key_item_at, after_key_word, column_item_at, item_at, items_at, last_words, alone, table_at, refused_in, written};
ghost use Rattle.sql_grammar.specs.Pieces.{after_sign};
ghost use Rattle.sql_grammar.specs.Tokens.{text_words};

use crate::columns::column_at;
use crate::options::options_at;
use crate::written::{Item, Items, WrittenKey, WrittenTable};
use base_values::Sequence;
use sql_grammar::{
    SchemaCode, SchemaFault, Token, after_keyword, after_sign, begins_no_item, in_version, key_at,
    key_columns_at, keyword_at, mismatch, name_at, sign_at, text_words,
};
use std::alloc::Global;

#[tactic(auto, unfolding(crate::specs::Written::primary_item_at))]
fn primary_item_at(alloc: Global, words: &[Token]) -> Result<(Item, &[Token]), SchemaFault>
    ensures { Answers (λ item. (item.0, item.1.now)) result (primary_item_at words.now) }
{
    let rest = keyword_at("KEY", words)?;
    let (columns, rest) = key_columns_at(alloc, rest)?;
    Ok((Item::Primary(columns), rest))
}

fn key_item_at(
    alloc: Global,
    is_unique: bool,
    words: &[Token],
) -> Result<(Item, &[Token]), SchemaFault>
    ensures { Answers (λ item. (item.0, item.1.now)) result (key_item_at is_unique words.now) }
{
    let (text, rest) = key_at(alloc, words)?;
    Ok((Item::Key(WrittenKey { is_unique, text }), rest))
}

#[tactic(auto, unfolding(crate::specs::Written::after_key_word))]
fn after_key_word(words: &[Token]) -> &[Token]
    ensures { result.now ≡ after_key_word words.now }
{
    match after_keyword("KEY", words) {
        Some(rest) => rest,
        None => match after_keyword("INDEX", words) {
            Some(rest) => rest,
            None => words,
        },
    }
}

fn column_item_at(
    alloc: Global,
    version: u32,
    words: &[Token],
) -> Result<(Item, &[Token]), SchemaFault>
    ensures { Answers (λ item. (item.0, item.1.now)) result (column_item_at version words.now) }
{
    let (column, rest) = column_at(alloc, version, words)?;
    Ok((Item::Column(column), rest))
}

#[tactic(auto, unfolding(crate::specs::Written::item_at))]
fn item_at(alloc: Global, version: u32, words: &[Token]) -> Result<(Item, &[Token]), SchemaFault>
    ensures { Answers (λ item. (item.0, item.1.now)) result (item_at version words.now) }
{
    match words {
        [] => Err(SchemaFault::Refused(mismatch(words))),
        [word, rest @ ..] => {
            if word.is_keyword("PRIMARY") {
                primary_item_at(alloc, rest)
            } else if word.is_keyword("UNIQUE") {
                key_item_at(alloc, true, after_key_word(rest))
            } else if word.is_keyword("KEY") || word.is_keyword("INDEX") {
                key_item_at(alloc, false, rest)
            } else if begins_no_item(version, word) {
                Err(SchemaFault::Refused(SchemaCode::Scope))
            } else {
                column_item_at(alloc, version, words)
            }
        }
    }
}

#[tactic(auto, unfolding(crate::specs::Written::items_at))]
fn items_at(alloc: Global, version: u32, words: &[Token]) -> Result<(Items, &[Token]), SchemaFault>
    ensures { Answers (λ items. (items.0, items.1.now)) result (items_at version words.now) }
{
    let mut items = Sequence::new(alloc);
    let mut rest = words;
    for _ in 0..words.len() {
        let (item, following) = item_at(alloc, version, rest)?;
        items.push(item)?;
        match after_sign(",", following) {
            None => return Ok((items, following)),
            Some(next) => rest = next,
        }
    }
    Err(SchemaFault::Refused(SchemaCode::Syntax))
}

fn last_words(words: &[Token]) -> &[Token]
    ensures { result.now ≡ last_words words.now (after_sign (codes ";") words.now) }
{
    match after_sign(";", words) {
        Some(rest) => rest,
        None => words,
    }
}

fn alone(table: WrittenTable, words: &[Token]) -> Result<WrittenTable, SchemaFault>
    ensures { Answers (λ table. table) result (alone table words.now) }
{
    match words {
        [] => Ok(table),
        [_, ..] => Err(SchemaFault::Refused(mismatch(words))),
    }
}

#[tactic(auto, unfolding(crate::specs::Written::table_at))]
fn table_at(alloc: Global, version: u32, words: &[Token]) -> Result<WrittenTable, SchemaFault>
    ensures { Answers (λ table. table) result (table_at version words.now) }
{
    let rest = keyword_at("CREATE", words)?;
    let rest = keyword_at("TABLE", rest)?;
    let (name, rest) = name_at(alloc, rest)?;
    let rest = sign_at("(", rest)?;
    let (items, rest) = items_at(alloc, version, rest)?;
    let rest = sign_at(")", rest)?;
    let (options, rest) = options_at(alloc, version, rest)?;
    alone(
        WrittenTable {
            name,
            items,
            options,
        },
        last_words(rest),
    )
}

/// The table that the words write, or its refusal as this version has it.
fn table_in(alloc: Global, version: u32, words: &[Token]) -> Result<WrittenTable, SchemaFault>
    ensures { Answers (λ table. table) result (refused_in version (table_at version words.now)) }
{
    match table_at(alloc, version, words) {
        Ok(table) => Ok(table),
        Err(SchemaFault::Refused(code)) => Err(SchemaFault::Refused(in_version(version, code))),
        Err(SchemaFault::Memory) => Err(SchemaFault::Memory),
    }
}

/// What the text writes in a plan of this version.
#[tactic(auto, unfolding(crate::specs::Written::written))]
pub fn written(alloc: Global, version: u32, text: &str) -> Result<WrittenTable, SchemaFault>
    ensures { Answers (λ table. table) result (written version (text_words text.now)) }
{
    let read = text_words(alloc, text)?;
    let table = table_in(alloc, version, read.words.as_slice())?;
    if read.is_faulty {
        return Err(SchemaFault::Refused(SchemaCode::Syntax));
    }
    Ok(table)
}

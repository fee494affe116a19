//! Columns as CREATE TABLE writes them.

ghost use Rattle.std.specs.Prelude.{◌≡◌, codes, option_map};
ghost use Rattle.sql_grammar.specs.Pieces.{after_keyword};
ghost use Rattle.base_values.specs.Faults.{Answers};
ghost use Rattle.sql_create.specs.Columns.{primary_at, unique_after, plain_at, column_attribute_at, column_attributes_at, column_at};

use crate::written::{ColumnAttribute, ColumnAttributes, WrittenColumn};
use sql_grammar::{SchemaFault, Token, after_keyword, attribute_at, keyword_at, kind_at, name_at};
use std::alloc::Global;

fn primary_at(words: &[Token]) -> Result<Option<(ColumnAttribute, &[Token])>, SchemaFault>
    ensures { Answers (option_map (λ read. (read.0, read.1.now))) result (primary_at words.now) }
{
    let rest = keyword_at("KEY", words)?;
    Ok(Some((ColumnAttribute::Primary, rest)))
}

fn unique_at(words: &[Token]) -> Option<(ColumnAttribute, &[Token])>
    ensures { option_map (λ read. (read.0, read.1.now)) result ≡ unique_after words.now (after_keyword (codes "KEY") words.now) }
{
    match after_keyword("KEY", words) {
        Some(rest) => Some((ColumnAttribute::Unique, rest)),
        None => Some((ColumnAttribute::Unique, words)),
    }
}

fn plain_at(
    alloc: Global,
    version: u32,
    words: &[Token],
) -> Result<Option<(ColumnAttribute, &[Token])>, SchemaFault>
    ensures { Answers (option_map (λ read. (read.0, read.1.now))) result (plain_at version words.now) }
{
    match attribute_at(alloc, version, words)? {
        Some((attribute, rest)) => Ok(Some((ColumnAttribute::Plain(attribute), rest))),
        None => Ok(None),
    }
}

#[tactic(auto, unfolding(crate::specs::Columns::column_attribute_at))]
fn column_attribute_at(
    alloc: Global,
    version: u32,
    words: &[Token],
) -> Result<Option<(ColumnAttribute, &[Token])>, SchemaFault>
    ensures { Answers (option_map (λ read. (read.0, read.1.now))) result (column_attribute_at version words.now) }
{
    match words {
        [] => Ok(None),
        [word, rest @ ..] => {
            if word.is_keyword("PRIMARY") {
                primary_at(rest)
            } else if word.is_keyword("UNIQUE") {
                Ok(unique_at(rest))
            } else {
                plain_at(alloc, version, words)
            }
        }
    }
}

#[tactic(auto, unfolding(crate::specs::Columns::column_attributes_at))]
fn column_attributes_at(
    alloc: Global,
    version: u32,
    words: &[Token],
) -> Result<(ColumnAttributes, &[Token]), SchemaFault>
    ensures { Answers (λ read. (read.0, read.1.now)) result (column_attributes_at version words.now) }
{
    let mut attributes = ColumnAttributes::new();
    let mut rest = words;
    for _ in 0..words.len() {
        match column_attribute_at(alloc, version, rest)? {
            None => return Ok((attributes, rest)),
            Some((attribute, following)) => {
                attributes = attributes.with(attribute);
                rest = following;
            }
        }
    }
    Ok((attributes, rest))
}

/// The first column, and what follows it.
#[tactic(auto, unfolding(crate::specs::Columns::column_at))]
pub fn column_at(
    alloc: Global,
    version: u32,
    words: &[Token],
) -> Result<(WrittenColumn, &[Token]), SchemaFault>
    ensures { Answers (λ column. (column.0, column.1.now)) result (column_at version words.now) }
{
    let (name, rest) = name_at(alloc, words)?;
    let (kind, rest) = kind_at(rest)?;
    let (attributes, rest) = column_attributes_at(alloc, version, rest)?;
    Ok((
        WrittenColumn {
            name,
            kind,
            attributes,
        },
        rest,
    ))
}

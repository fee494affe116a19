//! A column as a clause writes it, and where it is put.

ghost use Rattle.std.specs.Prelude.{option_map};
ghost use Rattle.base_values.specs.Faults.{Answers};
ghost use Rattle.sql_alter.specs.Column.{new_attribute_at, new_attributes_at, new_column_at, after_at, column_position_at};

use crate::pieces::{attribute_at, keyword_at, kind_at, name_at};
use base_values::row_conversion::{ColumnPosition, NewColumn};
use sql_change::{AlterCode, AlterFault};
use sql_grammar::{Attribute, Attributes, Token, after_keyword};
use std::alloc::Global;

#[tactic(auto, unfolding(crate::specs::Column::new_attribute_at))]
fn new_attribute_at(
    alloc: Global,
    version: u32,
    words: &[Token],
) -> Result<Option<(Attribute, &[Token])>, AlterFault>
    ensures { Answers (option_map (λ read. (read.0, read.1.now))) result (new_attribute_at version words.now) }
{
    match words {
        [] => Ok(None),
        [word, rest @ ..] => {
            if word.is_keyword("UNIQUE") {
                Err(AlterFault::Refused(AlterCode::AddUnique))
            } else if word.is_keyword("PRIMARY") {
                keyword_at("KEY", rest)?;
                Err(AlterFault::Refused(AlterCode::ClusteredKeyChange))
            } else {
                attribute_at(alloc, version, words)
            }
        }
    }
}

#[tactic(auto, unfolding(crate::specs::Column::new_attributes_at))]
fn new_attributes_at(
    alloc: Global,
    version: u32,
    words: &[Token],
) -> Result<(Attributes, &[Token]), AlterFault>
    ensures { Answers (λ read. (read.0, read.1.now)) result (new_attributes_at version words.now) }
{
    let mut attributes = Attributes::new();
    let mut rest = words;
    for _ in 0..words.len() {
        match new_attribute_at(alloc, version, rest)? {
            None => return Ok((attributes, rest)),
            Some((attribute, following)) => {
                attributes = attributes.with(attribute);
                rest = following;
            }
        }
    }
    Ok((attributes, rest))
}

/// The column at the front, and what follows it.
#[tactic(auto, unfolding(crate::specs::Column::new_column_at))]
pub fn new_column_at(
    alloc: Global,
    version: u32,
    words: &[Token],
) -> Result<(NewColumn, &[Token]), AlterFault>
    ensures { Answers (λ column. (column.0, column.1.now)) result (new_column_at version words.now) }
{
    let (name, rest) = name_at(alloc, words)?;
    let (kind, rest) = kind_at(rest)?;
    let (attributes, rest) = new_attributes_at(alloc, version, rest)?;
    let Attributes {
        nullable,
        default,
        auto,
    } = attributes;
    Ok((
        NewColumn {
            name,
            kind,
            nullable,
            default,
            auto,
        },
        rest,
    ))
}

fn after_at(alloc: Global, words: &[Token]) -> Result<(ColumnPosition, &[Token]), AlterFault>
    ensures { Answers (λ column_position. (column_position.0, column_position.1.now)) result (after_at words.now) }
{
    let (name, rest) = name_at(alloc, words)?;
    Ok((ColumnPosition::After(name), rest))
}

/// Where a clause puts its column, and what follows that.
#[tactic(auto, unfolding(crate::specs::Column::column_position_at))]
pub fn column_position_at(
    alloc: Global,
    words: &[Token],
) -> Result<(ColumnPosition, &[Token]), AlterFault>
    ensures { Answers (λ column_position. (column_position.0, column_position.1.now)) result (column_position_at words.now) }
{
    match after_keyword("FIRST", words) {
        Some(rest) => Ok((ColumnPosition::First, rest)),
        None => match after_keyword("AFTER", words) {
            Some(rest) => after_at(alloc, rest),
            None => Ok((ColumnPosition::Unsaid, words)),
        },
    }
}

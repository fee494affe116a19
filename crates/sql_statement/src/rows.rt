//! The lists of INSERT, REPLACE, UPDATE and SELECT.

ghost use Rattle.base_values.specs.Faults.{Answers};
ghost use Rattle.sql_statement.specs.Rows.{literals_at, set_at, sets_at, columns_at, values_at, row_at};

use crate::code::StatementFault;
use crate::pieces::{MISTAKE, keyword_at, literal_at, name_at, names_at, sign_at};
use base_script::{Set, Sets};
use base_values::{Name, Names, Row, Sequence, Shared};
use sql_grammar::{Token, after_sign};
use std::alloc::Global;

/// What INSERT and REPLACE say.
#[derive(Drop)]
pub struct RowText {
    /// The table's name.
    pub table: Name,
    /// The names of the columns, where they are written.
    pub columns: Option<Names>,
    /// The row's values.
    pub values: Row,
}

#[tactic(auto, unfolding(crate::specs::Rows::literals_at))]
fn literals_at(alloc: Global, words: &[Token]) -> Result<(Row, &[Token]), StatementFault>
    ensures { Answers (λ values. (values.0, values.1.now)) result (literals_at words.now) }
{
    let mut values = Sequence::new(alloc);
    let mut rest = words;
    for _ in 0..words.len() {
        let (value, following) = literal_at(alloc, rest)?;
        values.push(value)?;
        match after_sign(",", following) {
            None => return Ok((Shared::from_sequence(values)?, following)),
            Some(next) => rest = next,
        }
    }
    Err(MISTAKE)
}

#[tactic(auto, unfolding(crate::specs::Rows::set_at))]
fn set_at(alloc: Global, words: &[Token]) -> Result<(Set, &[Token]), StatementFault>
    ensures { Answers (λ set. (set.0, set.1.now)) result (set_at words.now) }
{
    let (column, rest) = name_at(alloc, words)?;
    let rest = sign_at("=", rest)?;
    let (value, rest) = literal_at(alloc, rest)?;
    Ok((Set { column, value }, rest))
}

/// The sets at the front, with commas between them, and what follows them.
#[tactic(auto, unfolding(crate::specs::Rows::sets_at))]
pub fn sets_at(alloc: Global, words: &[Token]) -> Result<(Sets, &[Token]), StatementFault>
    ensures { Answers (λ sets. (sets.0, sets.1.now)) result (sets_at words.now) }
{
    let mut sets = Sequence::new(alloc);
    let mut rest = words;
    for _ in 0..words.len() {
        let (set, following) = set_at(alloc, rest)?;
        sets.push(set)?;
        match after_sign(",", following) {
            None => return Ok((sets, following)),
            Some(next) => rest = next,
        }
    }
    Err(MISTAKE)
}

#[tactic(auto, unfolding(crate::specs::Rows::columns_at))]
fn columns_at(alloc: Global, words: &[Token]) -> Result<(Option<Names>, &[Token]), StatementFault>
    ensures { Answers (λ columns. (columns.0, columns.1.now)) result (columns_at words.now) }
{
    match after_sign("(", words) {
        None => Ok((None, words)),
        Some(rest) => {
            let (names, rest) = names_at(alloc, rest)?;
            let rest = sign_at(")", rest)?;
            Ok((Some(names), rest))
        }
    }
}

#[tactic(auto, unfolding(crate::specs::Rows::values_at))]
fn values_at(alloc: Global, words: &[Token]) -> Result<(Row, &[Token]), StatementFault>
    ensures { Answers (λ values. (values.0, values.1.now)) result (values_at words.now) }
{
    let rest = keyword_at("VALUES", words)?;
    let rest = sign_at("(", rest)?;
    let (values, rest) = literals_at(alloc, rest)?;
    let rest = sign_at(")", rest)?;
    Ok((values, rest))
}

/// What an INSERT or a REPLACE says after its first word, and what follows that.
#[tactic(auto, unfolding(crate::specs::Rows::row_at))]
pub fn row_at(alloc: Global, words: &[Token]) -> Result<(RowText, &[Token]), StatementFault>
    ensures { Answers (λ row. (row.0, row.1.now)) result (row_at words.now) }
{
    let rest = keyword_at("INTO", words)?;
    let (table, rest) = name_at(alloc, rest)?;
    let (columns, rest) = columns_at(alloc, rest)?;
    let (values, rest) = values_at(alloc, rest)?;
    Ok((
        RowText {
            table,
            columns,
            values,
        },
        rest,
    ))
}

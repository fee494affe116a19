//! Clauses that write a column or an index: ADD, CHANGE and MODIFY.

ghost use Rattle.base_values.specs.Faults.{Answers};
ghost use Rattle.sql_alter.specs.Additions.{add_column_at, add_index_at, add_at, change_at, modify_at};

use crate::column::{column_position_at, new_column_at};
use crate::pieces::{after_column, is_index_word, is_out_of_scope, key_at, keyword_at, name_at};
use base_values::Duplicate;
use base_values::row_conversion::Clause;
use sql_change::{AlterCode, AlterFault};
use sql_grammar::{KeyText, Token};
use std::alloc::Global;

#[tactic(auto, unfolding(crate::specs::Additions::add_column_at))]
fn add_column_at(
    alloc: Global,
    version: u32,
    words: &[Token],
) -> Result<(Clause, &[Token]), AlterFault>
    ensures { Answers (λ clause. (clause.0, clause.1.now)) result (add_column_at version words.now) }
{
    let (column, rest) = new_column_at(alloc, version, words)?;
    let (column_position, rest) = column_position_at(alloc, rest)?;
    Ok((
        Clause::Add {
            column,
            column_position,
        },
        rest,
    ))
}

#[tactic(auto, unfolding(crate::specs::Additions::add_index_at))]
fn add_index_at(alloc: Global, words: &[Token]) -> Result<(Clause, &[Token]), AlterFault>
    ensures { Answers (λ clause. (clause.0, clause.1.now)) result (add_index_at words.now) }
{
    let (key, rest) = key_at(alloc, words)?;
    let KeyText { name, columns } = key;
    Ok((Clause::AddIndex { name, columns }, rest))
}

/// The clause whose ADD comes before these words, and what follows it.
#[tactic(auto, unfolding(crate::specs::Additions::add_at))]
pub fn add_at(
    alloc: Global,
    version: u32,
    words: &[Token],
) -> Result<(Clause, &[Token]), AlterFault>
    ensures { Answers (λ clause. (clause.0, clause.1.now)) result (add_at version words.now) }
{
    match words {
        [] => Err(AlterFault::Refused(AlterCode::Syntax)),
        [word, rest @ ..] => {
            if is_out_of_scope(word) {
                Err(AlterFault::Refused(AlterCode::Scope))
            } else if word.is_keyword("UNIQUE") {
                Err(AlterFault::Refused(AlterCode::AddUnique))
            } else if word.is_keyword("PRIMARY") {
                keyword_at("KEY", rest)?;
                Err(AlterFault::Refused(AlterCode::ClusteredKeyChange))
            } else if is_index_word(word) {
                add_index_at(alloc, rest)
            } else {
                add_column_at(alloc, version, after_column(words))
            }
        }
    }
}

/// The clause whose CHANGE comes before these words, and what follows it.
#[tactic(auto, unfolding(crate::specs::Additions::change_at))]
pub fn change_at(
    alloc: Global,
    version: u32,
    words: &[Token],
) -> Result<(Clause, &[Token]), AlterFault>
    ensures { Answers (λ clause. (clause.0, clause.1.now)) result (change_at version words.now) }
{
    let (old, rest) = name_at(alloc, after_column(words))?;
    let (column, rest) = new_column_at(alloc, version, rest)?;
    let (column_position, rest) = column_position_at(alloc, rest)?;
    Ok((
        Clause::Change {
            old,
            column,
            column_position,
        },
        rest,
    ))
}

/// The clause whose MODIFY comes before these words, and what follows it.
#[tactic(auto, unfolding(crate::specs::Additions::modify_at))]
pub fn modify_at(
    alloc: Global,
    version: u32,
    words: &[Token],
) -> Result<(Clause, &[Token]), AlterFault>
    ensures { Answers (λ clause. (clause.0, clause.1.now)) result (modify_at version words.now) }
{
    let (column, rest) = new_column_at(alloc, version, after_column(words))?;
    let (column_position, rest) = column_position_at(alloc, rest)?;
    let old = column.name.copy()?;
    Ok((
        Clause::Change {
            old,
            column,
            column_position,
        },
        rest,
    ))
}

//! Clauses that take something away or give it another name: DROP and RENAME.

ghost use Rattle.base_values.specs.Faults.{Answers};
ghost use Rattle.sql_alter.specs.Removals.{drop_column_at, drop_index_at, drop_at, rename_column_at, rename_at};

use crate::pieces::{after_column, is_index_word, is_out_of_scope, keyword_at, name_at};
use base_values::row_conversion::Clause;
use sql_change::{AlterCode, AlterFault};
use sql_grammar::Token;
use std::alloc::Global;

#[tactic(auto, unfolding(crate::specs::Removals::drop_column_at))]
fn drop_column_at(alloc: Global, words: &[Token]) -> Result<(Clause, &[Token]), AlterFault>
    ensures { Answers (λ clause. (clause.0, clause.1.now)) result (drop_column_at words.now) }
{
    let (name, rest) = name_at(alloc, words)?;
    Ok((Clause::Drop(name), rest))
}

#[tactic(auto, unfolding(crate::specs::Removals::drop_index_at))]
fn drop_index_at(alloc: Global, words: &[Token]) -> Result<(Clause, &[Token]), AlterFault>
    ensures { Answers (λ clause. (clause.0, clause.1.now)) result (drop_index_at words.now) }
{
    let (name, rest) = name_at(alloc, words)?;
    Ok((Clause::DropIndex(name), rest))
}

/// The clause whose DROP comes before these words, and what follows it.
#[tactic(auto, unfolding(crate::specs::Removals::drop_at))]
pub fn drop_at(alloc: Global, words: &[Token]) -> Result<(Clause, &[Token]), AlterFault>
    ensures { Answers (λ clause. (clause.0, clause.1.now)) result (drop_at words.now) }
{
    match words {
        [] => Err(AlterFault::Refused(AlterCode::Syntax)),
        [word, rest @ ..] => {
            if is_out_of_scope(word) {
                Err(AlterFault::Refused(AlterCode::Scope))
            } else if word.is_keyword("PRIMARY") {
                keyword_at("KEY", rest)?;
                Err(AlterFault::Refused(AlterCode::ClusteredKeyChange))
            } else if is_index_word(word) {
                drop_index_at(alloc, rest)
            } else {
                drop_column_at(alloc, after_column(words))
            }
        }
    }
}

#[tactic(auto, unfolding(crate::specs::Removals::rename_column_at))]
fn rename_column_at(alloc: Global, words: &[Token]) -> Result<(Clause, &[Token]), AlterFault>
    ensures { Answers (λ clause. (clause.0, clause.1.now)) result (rename_column_at words.now) }
{
    let (old, rest) = name_at(alloc, words)?;
    let rest = keyword_at("TO", rest)?;
    let (new, rest) = name_at(alloc, rest)?;
    Ok((Clause::Rename { old, new }, rest))
}

/// The clause whose RENAME comes before these words, and what follows it.
#[tactic(auto, unfolding(crate::specs::Removals::rename_at))]
pub fn rename_at(alloc: Global, words: &[Token]) -> Result<(Clause, &[Token]), AlterFault>
    ensures { Answers (λ clause. (clause.0, clause.1.now)) result (rename_at words.now) }
{
    match words {
        [] => Err(AlterFault::Refused(AlterCode::Syntax)),
        [word, rest @ ..] => {
            if word.is_keyword("COLUMN") {
                rename_column_at(alloc, rest)
            } else if word.is_keyword("TO") || word.is_keyword("AS") {
                Err(AlterFault::Refused(AlterCode::RenameTable))
            } else if is_index_word(word) {
                Err(AlterFault::Refused(AlterCode::Scope))
            } else {
                Err(AlterFault::Refused(AlterCode::Syntax))
            }
        }
    }
}

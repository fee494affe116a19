//! The clauses of an ALTER, and the ALTER TABLE that may come before them.

ghost use Rattle.std.specs.Prelude.{codes};
ghost use Rattle.base_values.specs.Faults.{Answers};
ghost use Rattle.sql_alter.specs.Clauses.{clause_at, list_at, clauses_at, after_table, front_at};
ghost use Rattle.sql_grammar.specs.Pieces.{after_keyword};

use crate::additions::{add_at, change_at, modify_at};
use crate::pieces::name_at;
use crate::removal::{drop_at, rename_at};
use base_values::row_conversion::{Clause, Clauses};
use base_values::{Name, Sequence};
use sql_change::{AlterCode, AlterFault};
use sql_grammar::{Token, after_keyword, after_sign};
use std::alloc::Global;

#[tactic(auto, unfolding(crate::specs::Clauses::clause_at))]
fn clause_at(alloc: Global, version: u32, words: &[Token]) -> Result<(Clause, &[Token]), AlterFault>
    ensures { Answers (λ clause. (clause.0, clause.1.now)) result (clause_at version words.now) }
{
    match words {
        [] => Err(AlterFault::Refused(AlterCode::Syntax)),
        [word, rest @ ..] => {
            if word.is_keyword("ADD") {
                add_at(alloc, version, rest)
            } else if word.is_keyword("DROP") {
                drop_at(alloc, rest)
            } else if word.is_keyword("RENAME") {
                rename_at(alloc, rest)
            } else if word.is_keyword("CHANGE") {
                change_at(alloc, version, rest)
            } else if word.is_keyword("MODIFY") {
                modify_at(alloc, version, rest)
            } else if word.is_sign(",") {
                Err(AlterFault::Refused(AlterCode::Syntax))
            } else {
                Err(AlterFault::Refused(AlterCode::Scope))
            }
        }
    }
}

#[tactic(auto, unfolding(crate::specs::Clauses::list_at))]
fn list_at(alloc: Global, version: u32, words: &[Token]) -> Result<(Clauses, &[Token]), AlterFault>
    ensures { Answers (λ clauses. (clauses.0, clauses.1.now)) result (list_at version words.now) }
{
    let mut clauses = Sequence::new(alloc);
    let mut rest = words;
    for _ in 0..words.len() {
        let (clause, following) = clause_at(alloc, version, rest)?;
        clauses.push(clause)?;
        match after_sign(",", following) {
            None => return Ok((clauses, following)),
            Some(next) => rest = next,
        }
    }
    Err(AlterFault::Refused(AlterCode::Syntax))
}

/// The clauses that all of the words are.
#[tactic(auto, unfolding(crate::specs::Clauses::clauses_at))]
pub fn clauses_at(alloc: Global, version: u32, words: &[Token]) -> Result<Clauses, AlterFault>
    ensures { Answers (λ clauses. clauses) result (clauses_at version words.now) }
{
    let (clauses, rest) = list_at(alloc, version, words)?;
    match rest {
        [] => Ok(clauses),
        [_, ..] => Err(AlterFault::Refused(AlterCode::Syntax)),
    }
}

fn after_table<'a>(
    alloc: Global,
    table: &Name,
    words: &'a [Token],
    following: &'a [Token],
) -> Result<&'a [Token], AlterFault>
    ensures { Answers (λ rest. rest.now) result (after_table table.now words.now (after_keyword (codes "TABLE") following.now)) }
{
    match after_keyword("TABLE", following) {
        None => Ok(words),
        Some(rest) => {
            let (name, rest) = name_at(alloc, rest)?;
            if name.as_str() == table.as_str() {
                Ok(rest)
            } else {
                Err(AlterFault::Refused(AlterCode::Syntax))
            }
        }
    }
}

/// What follows ALTER TABLE and the table's name, where those come first.
#[tactic(auto, unfolding(crate::specs::Clauses::front_at))]
pub fn front_at<'a>(
    alloc: Global,
    table: &Name,
    words: &'a [Token],
) -> Result<&'a [Token], AlterFault>
    ensures { Answers (λ rest. rest.now) result (front_at table.now words.now) }
{
    match after_keyword("ALTER", words) {
        None => Ok(words),
        Some(following) => after_table(alloc, table, words, following),
    }
}

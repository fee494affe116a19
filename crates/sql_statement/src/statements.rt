//! What a line asks for, by its words.

ghost use Rattle.std.specs.Prelude.{◌≡◌, option_map};
ghost use Rattle.base_values.specs.Faults.{Answers};
ghost use Rattle.sql_statement.specs.Statements.{insert_at, replace_at, delete_at, update_at, count_at, count_or_columns, after_count, shown_at, select_at, start_at, asked_at, ended, statement_of};

use crate::code::{StatementCode, StatementFault};
use crate::conditions::condition_at;
use crate::pieces::{MISTAKE, keyword_at, name_at, names_at, sign_at};
use crate::rows::{RowText, row_at, sets_at};
use crate::scope::is_out_of_scope;
use base_script::{ScriptWord, Shown, Statement};
use sql_grammar::{Token, after_keyword, after_sign};
use std::alloc::Global;

#[tactic(auto, unfolding(crate::specs::Statements::insert_at))]
fn insert_at(alloc: Global, words: &[Token]) -> Result<(ScriptWord, &[Token]), StatementFault>
    ensures { Answers (λ asked. (asked.0, asked.1.now)) result (insert_at words.now) }
{
    let (row, rest) = row_at(alloc, words)?;
    let RowText {
        table,
        columns,
        values,
    } = row;
    Ok((
        ScriptWord::Do(Statement::Insert {
            table,
            columns,
            values,
            drawn: None,
        }),
        rest,
    ))
}

#[tactic(auto, unfolding(crate::specs::Statements::replace_at))]
fn replace_at(alloc: Global, words: &[Token]) -> Result<(ScriptWord, &[Token]), StatementFault>
    ensures { Answers (λ asked. (asked.0, asked.1.now)) result (replace_at words.now) }
{
    let (row, rest) = row_at(alloc, words)?;
    let RowText {
        table,
        columns,
        values,
    } = row;
    Ok((
        ScriptWord::Do(Statement::Replace {
            table,
            columns,
            values,
            drawn: None,
        }),
        rest,
    ))
}

#[tactic(auto, unfolding(crate::specs::Statements::delete_at))]
fn delete_at(alloc: Global, words: &[Token]) -> Result<(ScriptWord, &[Token]), StatementFault>
    ensures { Answers (λ asked. (asked.0, asked.1.now)) result (delete_at words.now) }
{
    let rest = keyword_at("FROM", words)?;
    let (table, rest) = name_at(alloc, rest)?;
    let (condition, rest) = condition_at(alloc, rest)?;
    Ok((ScriptWord::Do(Statement::Delete { table, condition }), rest))
}

#[tactic(auto, unfolding(crate::specs::Statements::update_at))]
fn update_at(alloc: Global, words: &[Token]) -> Result<(ScriptWord, &[Token]), StatementFault>
    ensures { Answers (λ asked. (asked.0, asked.1.now)) result (update_at words.now) }
{
    let (table, rest) = name_at(alloc, words)?;
    let rest = keyword_at("SET", rest)?;
    let (sets, rest) = sets_at(alloc, rest)?;
    let (condition, rest) = condition_at(alloc, rest)?;
    Ok((
        ScriptWord::Do(Statement::Update {
            table,
            sets,
            condition,
        }),
        rest,
    ))
}

fn count_at(words: &[Token]) -> Result<(Shown, &[Token]), StatementFault>
    ensures { Answers (λ shown. (shown.0, shown.1.now)) result (count_at words.now) }
{
    let rest = sign_at("*", words)?;
    let rest = sign_at(")", rest)?;
    Ok((Shown::Count, rest))
}

/// What follows COUNT and its opening parenthesis.
#[tactic(auto, unfolding(crate::specs::Statements::after_count))]
fn after_count(words: &[Token]) -> Option<&[Token]>
    ensures { option_map (λ rest. rest.now) result ≡ after_count words.now }
{
    match after_keyword("COUNT", words) {
        None => None,
        Some(rest) => after_sign("(", rest),
    }
}

fn count_or_columns(alloc: Global, words: &[Token]) -> Result<(Shown, &[Token]), StatementFault>
    ensures { Answers (λ shown. (shown.0, shown.1.now)) result (count_or_columns words.now (after_count words.now)) }
{
    match after_count(words) {
        Some(rest) => count_at(rest),
        None => {
            let (names, rest) = names_at(alloc, words)?;
            Ok((Shown::Columns(names), rest))
        }
    }
}

#[tactic(auto, unfolding(crate::specs::Statements::shown_at))]
fn shown_at(alloc: Global, words: &[Token]) -> Result<(Shown, &[Token]), StatementFault>
    ensures { Answers (λ shown. (shown.0, shown.1.now)) result (shown_at words.now) }
{
    match after_sign("*", words) {
        Some(rest) => Ok((Shown::All, rest)),
        None => count_or_columns(alloc, words),
    }
}

#[tactic(auto, unfolding(crate::specs::Statements::select_at))]
fn select_at(alloc: Global, words: &[Token]) -> Result<(ScriptWord, &[Token]), StatementFault>
    ensures { Answers (λ asked. (asked.0, asked.1.now)) result (select_at words.now) }
{
    let (shown, rest) = shown_at(alloc, words)?;
    let rest = keyword_at("FROM", rest)?;
    let (table, rest) = name_at(alloc, rest)?;
    let (condition, rest) = condition_at(alloc, rest)?;
    Ok((
        ScriptWord::Do(Statement::Select {
            table,
            shown,
            condition,
        }),
        rest,
    ))
}

fn start_at(words: &[Token]) -> Result<(ScriptWord, &[Token]), StatementFault>
    ensures { Answers (λ asked. (asked.0, asked.1.now)) result (start_at words.now) }
{
    let rest = keyword_at("TRANSACTION", words)?;
    Ok((ScriptWord::Begin, rest))
}

#[tactic(auto, unfolding(crate::specs::Statements::asked_at))]
fn asked_at(alloc: Global, words: &[Token]) -> Result<(ScriptWord, &[Token]), StatementFault>
    ensures { Answers (λ asked. (asked.0, asked.1.now)) result (asked_at words.now) }
{
    match words {
        [] => Err(MISTAKE),
        [word, rest @ ..] => {
            if word.is_keyword("INSERT") {
                insert_at(alloc, rest)
            } else if word.is_keyword("REPLACE") {
                replace_at(alloc, rest)
            } else if word.is_keyword("DELETE") {
                delete_at(alloc, rest)
            } else if word.is_keyword("UPDATE") {
                update_at(alloc, rest)
            } else if word.is_keyword("SELECT") {
                select_at(alloc, rest)
            } else if word.is_keyword("BEGIN") {
                Ok((ScriptWord::Begin, rest))
            } else if word.is_keyword("START") {
                start_at(rest)
            } else if word.is_keyword("COMMIT") {
                Ok((ScriptWord::Commit, rest))
            } else if word.is_keyword("ROLLBACK") {
                Ok((ScriptWord::Rollback, rest))
            } else {
                Err(MISTAKE)
            }
        }
    }
}

/// What a line asks for, where nothing is left of it, or one `;`.
fn ended(asked: ScriptWord, rest: &[Token]) -> Result<ScriptWord, StatementFault>
    ensures { Answers (λ asked. asked) result (ended asked rest.now) }
{
    match rest {
        [] => Ok(asked),
        [word] => {
            if word.is_sign(";") {
                Ok(asked)
            } else {
                Err(MISTAKE)
            }
        }
        [_, _, ..] => Err(MISTAKE),
    }
}

/// Reads what the words of a line ask for: a statement, or where a transaction begins or ends. What this program leaves
/// out on purpose is refused before any mistake.
#[tactic(auto, unfolding(crate::specs::Statements::statement_of))]
pub fn read_statement(alloc: Global, words: &[Token]) -> Result<ScriptWord, StatementFault>
    ensures { Answers (λ asked. asked) result (statement_of words.now) }
{
    if is_out_of_scope(words) {
        return Err(StatementFault::Refused(StatementCode::Scope));
    }
    let (asked, rest) = asked_at(alloc, words)?;
    ended(asked, rest)
}

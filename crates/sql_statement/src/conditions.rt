//! The conditions of statements.

ghost use Rattle.std.specs.Prelude.{◌≡◌, [], ◌∷◌, option_map, IfOk};
ghost use Rattle.base_values.specs.Faults.{Answers};
ghost use Rattle.sql_statement.specs.Conditions.{equality_at, and_equality_at, more_equalities_at, equalities_at, sign_of, comparison_sign_at, comparison_at, both_of, comparisons_at, between_at, form_at, condition_at};

use crate::code::StatementFault;
use crate::pieces::{MISTAKE, keyword_at, name_at, operand_at, sign_at};
use base_script::{Comparison, Comparisons, Condition, Set, Sets, Sign};
use base_values::gho_schema::same_name;
use base_values::{Duplicate, Sequence};
use sql_grammar::{Token, after_keyword};
use std::alloc::{AllocError, Global};

/// Which of its three forms a condition has.
#[derive(Clone, Copy)]
pub enum ConditionForm {
    /// Equalities joined by AND.
    Equality,
    /// A column BETWEEN two values.
    Between,
    /// One or two comparisons.
    Comparing,
}

#[tactic(auto, unfolding(crate::specs::Conditions::equality_at))]
fn equality_at(alloc: Global, words: &[Token]) -> Result<(Set, &[Token]), StatementFault>
    ensures { Answers (λ set. (set.0, set.1.now)) result (equality_at words.now) }
{
    let (column, rest) = name_at(alloc, words)?;
    let rest = sign_at("=", rest)?;
    let (value, rest) = operand_at(alloc, rest)?;
    Ok((Set { column, value }, rest))
}

/// The equality after AND, where AND is there.
#[tactic(auto, unfolding(crate::specs::Conditions::and_equality_at))]
fn and_equality_at(
    alloc: Global,
    words: &[Token],
) -> Result<Option<(Set, &[Token])>, StatementFault>
    ensures { Answers (option_map (λ read. (read.0, read.1.now))) result (and_equality_at words.now) }
{
    match after_keyword("AND", words) {
        None => Ok(None),
        Some(rest) => {
            let (set, rest) = equality_at(alloc, rest)?;
            Ok(Some((set, rest)))
        }
    }
}

/// The equalities with those after them.
#[tactic(auto, unfolding(crate::specs::Conditions::more_equalities_at))]
fn more_equalities_at(
    alloc: Global,
    sets: Sets,
    words: &[Token],
) -> Result<(Sets, &[Token]), StatementFault>
    ensures { Answers (λ sets. (sets.0, sets.1.now)) result (more_equalities_at sets words.now) }
{
    let mut all = sets;
    let mut rest = words;
    for _ in 0..words.len() {
        match and_equality_at(alloc, rest)? {
            None => return Ok((all, rest)),
            Some((set, following)) => {
                all.push(set)?;
                rest = following;
            }
        }
    }
    Ok((all, rest))
}

#[tactic(auto, unfolding(crate::specs::Conditions::equalities_at))]
fn equalities_at(alloc: Global, words: &[Token]) -> Result<(Condition, &[Token]), StatementFault>
    ensures { Answers (λ condition. (condition.0, condition.1.now)) result (equalities_at words.now) }
{
    let (first, rest) = equality_at(alloc, words)?;
    let mut sets = Sequence::new(alloc);
    sets.push(first)?;
    let (sets, rest) = more_equalities_at(alloc, sets, rest)?;
    Ok((Condition::Equal(sets), rest))
}

#[tactic(auto, unfolding(crate::specs::Conditions::sign_of))]
fn sign_of(word: &Token) -> Option<Sign>
    ensures { result ≡ sign_of word.now }
{
    if word.is_sign("<") {
        Some(Sign::Less)
    } else if word.is_sign("<=") {
        Some(Sign::AtMost)
    } else if word.is_sign(">") {
        Some(Sign::More)
    } else if word.is_sign(">=") {
        Some(Sign::AtLeast)
    } else {
        None
    }
}

#[tactic(auto, unfolding(crate::specs::Conditions::comparison_sign_at))]
fn comparison_sign_at(words: &[Token]) -> Result<(Sign, &[Token]), StatementFault>
    ensures { Answers (λ sign. (sign.0, sign.1.now)) result (comparison_sign_at words.now) }
{
    match words {
        [] => Err(MISTAKE),
        [word, rest @ ..] => {
            match sign_of(word) {
                Some(sign) => Ok((sign, rest)),
                None => Err(MISTAKE),
            }
        }
    }
}

#[tactic(auto, unfolding(crate::specs::Conditions::comparison_at))]
fn comparison_at(alloc: Global, words: &[Token]) -> Result<(Comparison, &[Token]), StatementFault>
    ensures { Answers (λ comparison. (comparison.0, comparison.1.now)) result (comparison_at words.now) }
{
    let (column, rest) = name_at(alloc, words)?;
    let (sign, rest) = comparison_sign_at(rest)?;
    let (value, rest) = operand_at(alloc, rest)?;
    Ok((
        Comparison {
            column,
            sign,
            value,
        },
        rest,
    ))
}

fn one(alloc: Global, first: Comparison) -> Result<Comparisons, AllocError>
    ensures { IfOk result (λ comparisons. comparisons ≡ first ∷ []) }
{
    let mut comparisons = Sequence::new(alloc);
    comparisons.push(first)?;
    Ok(comparisons)
}

fn two(alloc: Global, first: Comparison, second: Comparison) -> Result<Comparisons, AllocError>
    ensures { IfOk result (λ comparisons. comparisons ≡ first ∷ second ∷ []) }
{
    let mut comparisons = one(alloc, first)?;
    comparisons.push(second)?;
    Ok(comparisons)
}

fn both_of(
    alloc: Global,
    first: Comparison,
    second: Comparison,
    rest: &[Token],
) -> Result<(Condition, &[Token]), StatementFault>
    ensures { Answers (λ condition. (condition.0, condition.1.now)) result (both_of first second rest.now) }
{
    if same_name(
        first.column.as_str().as_bytes(),
        second.column.as_str().as_bytes(),
    ) {
        Ok((Condition::Range(two(alloc, first, second)?), rest))
    } else {
        Err(MISTAKE)
    }
}

#[tactic(auto, unfolding(crate::specs::Conditions::comparisons_at))]
fn comparisons_at(alloc: Global, words: &[Token]) -> Result<(Condition, &[Token]), StatementFault>
    ensures { Answers (λ condition. (condition.0, condition.1.now)) result (comparisons_at words.now) }
{
    let (first, rest) = comparison_at(alloc, words)?;
    match after_keyword("AND", rest) {
        None => Ok((Condition::Range(one(alloc, first)?), rest)),
        Some(following) => {
            let (second, rest) = comparison_at(alloc, following)?;
            both_of(alloc, first, second, rest)
        }
    }
}

#[tactic(auto, unfolding(crate::specs::Conditions::between_at))]
fn between_at(alloc: Global, words: &[Token]) -> Result<(Condition, &[Token]), StatementFault>
    ensures { Answers (λ condition. (condition.0, condition.1.now)) result (between_at words.now) }
{
    let (column, rest) = name_at(alloc, words)?;
    let rest = keyword_at("BETWEEN", rest)?;
    let (low, rest) = operand_at(alloc, rest)?;
    let rest = keyword_at("AND", rest)?;
    let (high, rest) = operand_at(alloc, rest)?;
    let at_least = Comparison {
        column: column.copy()?,
        sign: Sign::AtLeast,
        value: low,
    };
    let at_most = Comparison {
        column,
        sign: Sign::AtMost,
        value: high,
    };
    Ok((Condition::Range(two(alloc, at_least, at_most)?), rest))
}

#[tactic(auto, unfolding(crate::specs::Conditions::form_at))]
fn form_at(words: &[Token]) -> ConditionForm
    ensures { result ≡ form_at words.now }
{
    match words {
        [_, word, ..] => {
            if word.is_sign("=") {
                ConditionForm::Equality
            } else if word.is_keyword("BETWEEN") {
                ConditionForm::Between
            } else {
                ConditionForm::Comparing
            }
        }
        [_] => ConditionForm::Comparing,
        [] => ConditionForm::Comparing,
    }
}

/// The condition at the front, and what follows it.
#[tactic(auto, unfolding(crate::specs::Conditions::condition_at))]
pub fn condition_at(alloc: Global, words: &[Token]) -> Result<(Condition, &[Token]), StatementFault>
    ensures { Answers (λ condition. (condition.0, condition.1.now)) result (condition_at words.now) }
{
    match after_keyword("WHERE", words) {
        None => Ok((Condition::All, words)),
        Some(rest) => match form_at(rest) {
            ConditionForm::Equality => equalities_at(alloc, rest),
            ConditionForm::Between => between_at(alloc, rest),
            ConditionForm::Comparing => comparisons_at(alloc, rest),
        },
    }
}

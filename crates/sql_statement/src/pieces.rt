//! Single words of a statement, at the front of what is left of its line.

ghost use Rattle.base_values.specs.Faults.{Answers};
ghost use Rattle.sql_statement.specs.Pieces.{keyword_at, sign_at, name_at, names_at, literal_at, unless_null, operand_at};

use crate::code::{StatementCode, StatementFault};
use base_values::{Name, Names, Value, because};
use sql_grammar::Token;
use std::alloc::Global;

/// What a word that doesn't fit is refused with.
pub const MISTAKE: StatementFault = StatementFault::Refused(StatementCode::Syntax);

/// What follows this keyword, which has to be the first word.
pub fn keyword_at<'a>(keyword: &str, words: &'a [Token]) -> Result<&'a [Token], StatementFault>
    ensures { Answers (λ rest. rest.now) result (keyword_at keyword.now words.now) }
{
    because(
        sql_grammar::keyword_at(keyword, words),
        |_| StatementCode::Syntax,
    )
}

/// What follows this sign, which has to be the first word.
pub fn sign_at<'a>(sign: &str, words: &'a [Token]) -> Result<&'a [Token], StatementFault>
    ensures { Answers (λ rest. rest.now) result (sign_at sign.now words.now) }
{
    because(sql_grammar::sign_at(sign, words), |_| StatementCode::Syntax)
}

/// The name at the front, and what follows it.
pub fn name_at(alloc: Global, words: &[Token]) -> Result<(Name, &[Token]), StatementFault>
    ensures { Answers (λ name. (name.0, name.1.now)) result (name_at words.now) }
{
    because(
        sql_grammar::name_at(alloc, words),
        |_| StatementCode::Syntax,
    )
}

/// The names at the front, with commas between them, and what follows them.
pub fn names_at(alloc: Global, words: &[Token]) -> Result<(Names, &[Token]), StatementFault>
    ensures { Answers (λ names. (names.0, names.1.now)) result (names_at words.now) }
{
    because(
        sql_grammar::names_at(alloc, words),
        |_| StatementCode::Syntax,
    )
}

/// The literal at the front, and what follows it.
pub fn literal_at(alloc: Global, words: &[Token]) -> Result<(Value, &[Token]), StatementFault>
    ensures { Answers (λ value. (value.0, value.1.now)) result (literal_at words.now) }
{
    because(
        sql_grammar::literal_at(alloc, words),
        |_| StatementCode::Syntax,
    )
}

fn unless_null(value: Value, rest: &[Token]) -> Result<(Value, &[Token]), StatementFault>
    ensures { Answers (λ value. (value.0, value.1.now)) result (unless_null value rest.now) }
{
    match &value {
        Value::Null => Err(MISTAKE),
        _ => Ok((value, rest)),
    }
}

/// The literal at the front, which isn't NULL, and what follows it.
#[tactic(auto, unfolding(crate::specs::Pieces::operand_at))]
pub fn operand_at(alloc: Global, words: &[Token]) -> Result<(Value, &[Token]), StatementFault>
    ensures { Answers (λ value. (value.0, value.1.now)) result (operand_at words.now) }
{
    let (value, rest) = literal_at(alloc, words)?;
    unless_null(value, rest)
}

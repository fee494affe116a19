//! The texts of rows.

ghost use Rattle.std.specs.Prelude.{◌≡◌, true, option_map, IfOk};
ghost use Rattle.base_values.specs.GhoSchema.Tables.{IsRow};
ghost use Rattle.sql_grammar.specs.Pieces.{after_sign};
ghost use Rattle.sql_grammar.specs.Tokens.{text_words};
ghost use Rattle.plan_reader.specs.PlanTables.Refusals.{Finds};
ghost use Rattle.plan_reader.specs.PlanTables.RowTexts.{value_at, mark, values_at, is_empty, row_of, row_at};

use crate::plan_tables::fault::RowFault;
use base_values::gho_schema::Column;
use base_values::laws::stored_values_store_again;
use base_values::{Row, Sequence, Shared, StoreFault, Value, store};
use sql_grammar::{SchemaFault, TextWords, Token, after_sign, literal_at, text_words};
use std::alloc::Global;

/// The literal at the front, as the column stores it, and what follows it.
#[tactic(auto, unfolding(crate::specs::PlanTables::RowTexts::value_at))]
fn value_at<'a>(
    alloc: Global,
    column: &Column,
    words: &'a [Token],
) -> Result<(Value, &'a [Token]), RowFault>
    ensures { Finds (λ value. (value.0, value.1.now)) result (value_at column.now words.now) }
{
    let (literal, rest) = match literal_at(alloc, words) {
        Ok(read) => read,
        Err(SchemaFault::Refused(_)) => return Err(RowFault::Bad),
        Err(SchemaFault::Memory) => return Err(RowFault::Memory),
    };
    match store(alloc, &literal, column.kind, column.nullable) {
        Ok(value) => Ok((value, rest)),
        Err(StoreFault::Refused(_)) => Err(RowFault::Bad),
        Err(StoreFault::Memory) => Err(RowFault::Memory),
    }
}

/// What follows the parenthesis of the first value, or after the comma of another.
fn after_mark(is_first: bool, words: &[Token]) -> Option<&[Token]>
    ensures { option_map (λ rest. rest.now) result ≡ after_sign (mark is_first) words.now }
{
    if is_first {
        after_sign("(", words)
    } else {
        after_sign(",", words)
    }
}

/// A value for each column, the first after a parenthesis, the others after a comma; and what follows them.
fn values_at<'a>(
    alloc: Global,
    columns: &[Column],
    words: &'a [Token],
) -> Result<(Row, &'a [Token]), RowFault>
    ensures { Finds (λ values. (values.0, values.1.now)) result (values_at columns.now true words.now) }
{
    let mut row = Sequence::new(alloc);
    let mut rest = words;
    let mut is_first = true;
    for column in columns {
        let following = match after_mark(is_first, rest) {
            None => return Err(RowFault::Bad),
            Some(following) => following,
        };
        let (value, after) = value_at(alloc, column, following)?;
        row.push(value)?;
        rest = after;
        is_first = false;
    }
    Ok((Shared::from_sequence(row)?, rest))
}

fn is_empty(words: &[Token]) -> bool
    ensures { result ≡ is_empty words.now }
{
    words.is_empty()
}

#[tactic(auto, unfolding(crate::specs::PlanTables::RowTexts::row_of))]
fn row_of(alloc: Global, columns: &[Column], read: &TextWords) -> Result<Row, RowFault>
    ensures { Finds (λ row. row) result (row_of columns.now read.now) }
{
    let (row, rest) = values_at(alloc, columns, read.words.as_slice())?;
    let Some(rest) = after_sign(")", rest) else {
        return Err(RowFault::Bad);
    };
    if is_empty(rest) && !read.is_faulty {
        Ok(row)
    } else {
        Err(RowFault::Bad)
    }
}

/// Reads the text of a row of these columns. Each value is as its column stores it.
pub fn read_row(alloc: Global, text: &str, columns: &[Column]) -> Result<Row, RowFault>
    ensures row { Finds (λ row. row) result (row_at columns.now text.now) }
    ensures fits { IfOk result (IsRow columns.now) }
{
    stored_values_store_again();
    let read = text_words(alloc, text)?;
    row_of(alloc, columns, &read)
}

//! Rows as they are printed.

ghost use Rattle.std.specs.Prelude.{◌≡◌, ◌++◌, OnOk, IfOk, option_to_list};
ghost use Rattle.sql_grammar.specs.Pieces.{literal_of};
ghost use Rattle.top_trace_reader.specs.Literals.{first_in, has_none, literals_in, number_in, numbers_in, row_in, row_printed_so};

use base_values::{Row, Sequence, Shared, Text, Value, Values, print_row};
use server_model::Numbers;
use sql_grammar::word_values::literal;
use sql_grammar::{Token, text_words};
use std::alloc::{AllocError, Global};

/// The value of the literal that a word is.
fn literal_of(alloc: Global, word: &Token) -> Result<Option<Value>, AllocError>
    ensures { IfOk result (λ value. value ≡ literal_of word.now) }
{
    if word.is_keyword("NULL") {
        Ok(Some(Value::Null))
    } else {
        literal(alloc, &word.word())
    }
}

fn push_found(values: &mut Values, found: Option<Value>) -> Result<(), AllocError>
    ensures { OnOk result (values.new ≡ values.old ++ option_to_list found) }
{
    match found {
        Some(value) => values.push(value),
        None => Ok(()),
    }
}

/// The values of the literals among words.
#[tactic(auto, unfolding(crate::specs::Literals::literals_in))]
pub(crate) fn literals_in(alloc: Global, words: &[Token]) -> Result<Values, AllocError>
    ensures { IfOk result (λ values. values ≡ literals_in words.now) }
{
    let mut values = Sequence::new(alloc);
    for word in words {
        let found = literal_of(alloc, word)?;
        push_found(&mut values, found)?;
    }
    Ok(values)
}

/// The number that a value is, from 0 on and below 2^64.
pub(crate) fn number_in(value: &Value) -> Option<u64>
    ensures { result ≡ number_in value.now }
{
    match value {
        Value::Num(number) => u64::try_from(*number).ok(),
        Value::Null | Value::Text(_) | Value::Blob(_) => None,
    }
}

fn push_number(numbers: &mut Numbers, found: Option<u64>) -> Result<(), AllocError>
    ensures { OnOk result (numbers.new ≡ numbers.old ++ option_to_list found) }
{
    match found {
        Some(number) => numbers.push(number),
        None => Ok(()),
    }
}

/// The numbers among values.
#[tactic(auto, unfolding(crate::specs::Literals::numbers_in))]
pub(crate) fn numbers_in(alloc: Global, values: &[Value]) -> Result<Numbers, AllocError>
    ensures { IfOk result (λ numbers. numbers ≡ numbers_in values.now) }
{
    let mut numbers = Sequence::new(alloc);
    for value in values {
        push_number(&mut numbers, number_in(value))?;
    }
    Ok(numbers)
}

/// The first item, and those after it.
pub(crate) fn first_in<T: Drop>(items: Sequence<T>) -> Option<(T, Sequence<T>)>
    ensures { result ≡ first_in items }
{
    let mut others = items.into_vec();
    if others.is_empty() {
        return None;
    }
    let first = others.remove(0);
    Some((first, Sequence::from_vec(others)))
}

/// The row, where it has a value and is printed as the line.
fn row_printed_so(alloc: Global, line: &str, row: Row) -> Result<Option<Row>, AllocError>
    ensures { IfOk result (λ row'. row' ≡ row_printed_so line.now row) }
{
    let mut printed = Text::new(alloc);
    print_row(row.as_slice(), &mut printed)?;
    if printed.as_str() == line && !row.is_empty() {
        Ok(Some(row))
    } else {
        Ok(None)
    }
}

/// The row that a line is.
#[tactic(auto, unfolding(crate::specs::Literals::row_in))]
pub(crate) fn row_in(alloc: Global, line: &str) -> Result<Option<Row>, AllocError>
    ensures { IfOk result (λ row. row ≡ row_in line.now) }
{
    let read = text_words(alloc, line)?;
    let row = Shared::from_sequence(literals_in(alloc, read.words.as_slice())?)?;
    row_printed_so(alloc, line, row)
}

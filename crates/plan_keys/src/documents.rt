//! What is at a key of a document.

ghost use Rattle.std.specs.Prelude.{◌≡◌, map, option_map, option_copied};
ghost use Rattle.toml.specs.Data.{get_member, as_array};
ghost use Rattle.toml.specs.View.{view, table_view, items_view};
ghost use Rattle.plan_keys.specs.Documents.{text_in, needed_text, text_or_empty, texts_in, texts_or_none, table_or_none, needed_number, number_or, truth_or};
ghost use Rattle.base_values.specs.Faults.{Answers};
ghost use Rattle.plan_keys.specs.Walks.{each_item};

use crate::fault::{KeyFault, KeyRefusal, WRONG_TYPE};
use std::alloc::Global;
use toml::{Table, Value};

const MISSING_KEY: KeyFault = KeyFault::Refused(KeyRefusal::MissingKey);

/// What is at a key.
pub fn member_at<'a>(table: &'a Table, key: &str) -> Option<&'a Value>
    ensures { option_map (λ value. view value.now) result ≡ get_member key.now (table_view table.now) }
{
    table.get(key)
}

fn text_in(value: &Value) -> Result<&str, KeyFault>
    ensures { Answers (λ text. text.now) result (text_in (view value.now)) }
{
    match value.as_str() {
        Some(text) => Ok(text),
        None => Err(WRONG_TYPE),
    }
}

/// The text at a key that has to be there.
pub fn needed_text<'a>(value: Option<&'a Value>) -> Result<&'a str, KeyFault>
    ensures { Answers (λ text. text.now) result (needed_text (option_map (λ value. view value.now) value.entry)) }
{
    match value {
        None => Err(MISSING_KEY),
        Some(value) => text_in(value),
    }
}

/// The text at a key; the empty one where it isn't there.
pub fn text_or_empty<'a>(value: Option<&'a Value>) -> Result<&'a str, KeyFault>
    ensures { Answers (λ text. text.now) result (text_or_empty (option_map (λ value. view value.now) value.entry)) }
{
    match value {
        None => Ok(""),
        Some(value) => text_in(value),
    }
}

/// The texts that the items are.
fn texts_of<'a>(alloc: Global, items: &'a [Value]) -> Result<Vec<&'a str>, KeyFault>
    ensures { Answers (λ texts. map (λ text. text.now) texts.items) result (each_item text_in (items_view items.now)) }
{
    let mut texts = Vec::new(alloc);
    for item in items {
        let text = text_in(item)?;
        texts.push(text)?;
    }
    Ok(texts)
}

fn texts_in<'a>(alloc: Global, value: &'a Value) -> Result<Vec<&'a str>, KeyFault>
    ensures { Answers (λ texts. map (λ text. text.now) texts.items) result (texts_in (as_array (view value.now))) }
{
    match value.as_array() {
        Some(items) => texts_of(alloc, items.as_slice()),
        None => Err(WRONG_TYPE),
    }
}

/// The texts at a key; none where it isn't there.
pub fn texts_or_none<'a>(alloc: Global, value: Option<&'a Value>) -> Result<Vec<&'a str>, KeyFault>
    ensures { Answers (λ texts. map (λ text. text.now) texts.items) result (texts_or_none (option_map (λ value. view value.now) value.entry)) }
{
    match value {
        None => Ok(Vec::new(alloc)),
        Some(value) => texts_in(alloc, value),
    }
}

/// The table at a key, where it is there.
pub fn table_or_none<'a>(value: Option<&'a Value>) -> Result<Option<&'a Table>, KeyFault>
    ensures { Answers (λ found. option_map (λ table. table_view table.now) found) result (table_or_none (option_map (λ value. view value.now) value.entry)) }
{
    match value {
        None => Ok(None),
        Some(value) => match value.as_table() {
            Some(table) => Ok(Some(table)),
            None => Err(WRONG_TYPE),
        },
    }
}

/// The number at a key that has to be there.
pub fn needed_number(value: Option<&Value>) -> Result<i64, KeyFault>
    ensures { Answers (λ number. number) result (needed_number (option_map (λ value. view value.now) value.entry)) }
{
    match value {
        None => Err(MISSING_KEY),
        Some(value) => value.as_integer().ok_or(WRONG_TYPE),
    }
}

/// The number at a key; the default where it isn't there.
pub fn number_or(default: u32, value: Option<&Value>) -> Result<i64, KeyFault>
    ensures { Answers (λ number. number) result (number_or default (option_map (λ value. view value.now) value.entry)) }
{
    match value {
        None => Ok(i64::from(default)),
        Some(value) => value.as_integer().ok_or(WRONG_TYPE),
    }
}

/// The truth value at a key; the default where it isn't there.
pub fn truth_or(default: bool, value: Option<&Value>) -> Result<bool, KeyFault>
    ensures { Answers (λ truth. truth) result (truth_or default (option_map (λ value. view value.now) value.entry)) }
{
    match value {
        None => Ok(default),
        Some(value) => value.as_bool().ok_or(WRONG_TYPE),
    }
}

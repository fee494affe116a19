//! Texts of CREATE TABLE.

use base_values::Text;
use base_values::gho_schema::Schema;
use sql_create::{SchemaFault, read_schema};
use sql_show::print_schema;
use std::alloc::{AllocError, Global};
use test_lines::{CallFault, text_of};

/// The schema of a text, for a plan of this version that migrates `t`, or the refusal's number.
fn schema_of(alloc: Global, version: u32, text: &str) -> Result<Result<Schema, u16>, AllocError> {
    match read_schema(alloc, text, "t", version) {
        Ok(schema) => Ok(Ok(schema)),
        Err(SchemaFault::Refused(code)) => Ok(Err(code.number())),
        Err(SchemaFault::Memory) => Err(AllocError),
    }
}

/// The text of CREATE TABLE of these items.
fn items_of(alloc: Global, items: &str) -> Result<Text, AllocError> {
    let mut text = Text::new(alloc);
    text.push_str("CREATE TABLE t (")?;
    text.push_str(items)?;
    text.push_str(")")?;
    Ok(text)
}

fn reported_schema(alloc: Global, schema: &Schema) -> Result<Text, CallFault> {
    let mut output = Text::new(alloc);
    print_schema(schema, &mut output)?;
    Ok(output)
}

fn reported_number(alloc: Global, number: u16) -> Result<Text, CallFault> {
    let mut output = Text::new(alloc);
    output.push_number(i128::from(number))?;
    Ok(output)
}

/// The schema's text, or the refusal's number.
fn output(alloc: Global, version: u32, text: &str) -> Result<Text, CallFault> {
    match schema_of(alloc, version, text)? {
        Ok(schema) => reported_schema(alloc, &schema),
        Err(number) => reported_number(alloc, number),
    }
}

/// Whether the items are taken, or the refusal's number.
fn taken(alloc: Global, version: u32, items: &str) -> Result<Text, CallFault> {
    let text = items_of(alloc, items)?;
    match schema_of(alloc, version, text.as_str())? {
        Ok(_) => text_of(alloc, "taken"),
        Err(number) => reported_number(alloc, number),
    }
}

/// The answer of a call about schemas, in a plan of version 1 or, with a 2 behind the call's name, of version 2.
pub fn answer(alloc: Global, call: &str, input: &str) -> Result<Text, CallFault> {
    match call {
        "text" => output(alloc, 1, input),
        "items" => output(alloc, 1, items_of(alloc, input)?.as_str()),
        "takes" => taken(alloc, 1, input),
        "text2" => output(alloc, 2, input),
        "items2" => output(alloc, 2, items_of(alloc, input)?.as_str()),
        "takes2" => taken(alloc, 2, input),
        _ => Err(CallFault::Unread),
    }
}

//! The text of a schema.

ghost use Rattle.std.specs.Prelude.{◌≡◌, ◌++◌, map, IfOk, OnOk, OnErr};
ghost use Rattle.sql_show.specs.SchemaText.{quoted, integer_name, printed_kind, printed_default, printed_auto, column_line, column_name, key_names, key_columns, unique_line, index_line, lines_of, joined, printed_start, printed_comment, printed_schema};

use base_values::gho_schema::{Column, Index, Schema};
use base_values::{Chars, Duplicate, Kind, Sequence, Text, Value, print_value};
use std::alloc::{AllocError, Global};

fn push_quoted(into: &mut Text, name: &str) -> Result<(), AllocError>
    ensures { OnOk result (into.new ≡ into.old ++ quoted name.now) }
{
    into.push_str("`")?;
    into.push_str(name)?;
    into.push_str("`")
}

fn integer_name(bytes: u8) -> &'static str
    ensures { result.now ≡ integer_name bytes }
{
    match bytes {
        1 => "TINYINT",
        2 => "SMALLINT",
        3 => "MEDIUMINT",
        4 => "INT",
        _ => "BIGINT",
    }
}

#[tactic(auto, unfolding(crate::specs::SchemaText::printed_kind))]
fn push_kind(into: &mut Text, kind: Kind) -> Result<(), AllocError>
    ensures { OnOk result (into.new ≡ into.old ++ printed_kind kind) }
{
    match kind {
        Kind::Int { bytes, unsigned } => {
            into.push_str(integer_name(bytes))?;
            into.push_str(if unsigned { " UNSIGNED" } else { "" })
        }
        Kind::VarChar(limit) => {
            into.push_str("VARCHAR(")?;
            into.push_number(i128::from(limit))?;
            into.push_str(")")
        }
        Kind::VarBinary(limit) => {
            into.push_str("VARBINARY(")?;
            into.push_number(i128::from(limit))?;
            into.push_str(")")
        }
    }
}

fn push_default(into: &mut Text, default: &Option<Value>) -> Result<(), AllocError>
    ensures { OnOk result (into.new ≡ into.old ++ printed_default default.now) }
{
    match default {
        None | Some(Value::Null) => Ok(()),
        Some(value) => {
            into.push_str(" DEFAULT ")?;
            print_value(value, into)
        }
    }
}

#[tactic(auto, unfolding(crate::specs::SchemaText::column_line))]
fn column_line(alloc: Global, column: &Column) -> Result<Text, AllocError>
    ensures { IfOk result (λ line. line ≡ column_line column.now) }
{
    let mut line = Text::new(alloc);
    push_quoted(&mut line, column.name.as_str())?;
    line.push_str(" ")?;
    push_kind(&mut line, column.kind)?;
    line.push_str(if column.nullable { "" } else { " NOT NULL" })?;
    push_default(&mut line, &column.default)?;
    line.push_str(if column.auto { " AUTO_INCREMENT" } else { "" })?;
    Ok(line)
}

fn push_column_name(into: &mut Text, columns: &[Column], place: usize) -> Result<(), AllocError>
    ensures { OnOk result (into.new ≡ into.old ++ quoted (column_name columns.now place)) }
{
    match columns.get(place) {
        Some(column) => push_quoted(into, column.name.as_str()),
        None => push_quoted(into, ""),
    }
}

#[tactic(auto, unfolding(crate::specs::SchemaText::key_names))]
fn push_key_names(into: &mut Text, columns: &[Column], places: &[usize]) -> Result<(), AllocError>
    ensures { OnOk result (into.new ≡ into.old ++ key_names columns.now places.now) }
{
    let [first, others @ ..] = places else {
        return Ok(());
    };
    push_column_name(into, columns, *first)?;
    for place in others {
        into.push_str(", ")?;
        push_column_name(into, columns, *place)?;
    }
    Ok(())
}

#[tactic(auto, unfolding(crate::specs::SchemaText::key_columns))]
fn push_key_columns(into: &mut Text, columns: &[Column], places: &[usize]) -> Result<(), AllocError>
    ensures { OnOk result (into.new ≡ into.old ++ key_columns columns.now places.now) }
{
    into.push_str("(")?;
    push_key_names(into, columns, places)?;
    into.push_str(")")
}

#[tactic(auto, unfolding(crate::specs::SchemaText::unique_line))]
fn unique_line(alloc: Global, columns: &[Column], index: &Index) -> Result<Text, AllocError>
    ensures { IfOk result (λ line. line ≡ unique_line columns.now index.now) }
{
    let mut line = Text::new(alloc);
    match &index.name {
        None => line.push_str("PRIMARY KEY ")?,
        Some(name) => {
            line.push_str("UNIQUE KEY ")?;
            push_quoted(&mut line, name.as_str())?;
            line.push_str(" ")?;
        }
    }
    push_key_columns(&mut line, columns, index.places.as_slice())?;
    Ok(line)
}

#[tactic(auto, unfolding(crate::specs::SchemaText::index_line))]
fn index_line(alloc: Global, columns: &[Column], index: &Index) -> Result<Text, AllocError>
    ensures { IfOk result (λ line. line ≡ index_line columns.now index.now) }
{
    let mut line = Text::new(alloc);
    line.push_str("KEY ")?;
    if let Some(name) = &index.name {
        push_quoted(&mut line, name.as_str())?;
        line.push_str(" ")?;
    }
    push_key_columns(&mut line, columns, index.places.as_slice())?;
    Ok(line)
}

fn column_lines(alloc: Global, columns: &[Column]) -> Result<Sequence<Text>, AllocError>
    ensures { IfOk result (λ lines. lines ≡ map column_line columns.now) }
{
    let mut lines = Sequence::new(alloc);
    for column in columns {
        lines.push(column_line(alloc, column)?)?;
    }
    Ok(lines)
}

fn push_unique_lines(
    alloc: Global,
    lines: &mut Sequence<Text>,
    columns: &[Column],
    uniques: &[Index],
) -> Result<(), AllocError>
    ensures { OnOk result (lines.new ≡ lines.old ++ map (unique_line columns.now) uniques.now) }
{
    for index in uniques {
        lines.push(unique_line(alloc, columns, index)?)?;
    }
    Ok(())
}

fn push_index_lines(
    alloc: Global,
    lines: &mut Sequence<Text>,
    columns: &[Column],
    indexes: &[Index],
) -> Result<(), AllocError>
    ensures { OnOk result (lines.new ≡ lines.old ++ map (index_line columns.now) indexes.now) }
{
    for index in indexes {
        lines.push(index_line(alloc, columns, index)?)?;
    }
    Ok(())
}

fn lines_of(alloc: Global, schema: &Schema) -> Result<Sequence<Text>, AllocError>
    ensures { IfOk result (λ lines. lines ≡ lines_of schema.now) }
{
    let columns = schema.columns.as_slice();
    let mut lines = column_lines(alloc, columns)?;
    push_unique_lines(alloc, &mut lines, columns, schema.uniques.as_slice())?;
    push_index_lines(alloc, &mut lines, columns, schema.indexes.as_slice())?;
    Ok(lines)
}

#[tactic(auto, unfolding(crate::specs::SchemaText::joined))]
fn push_joined(into: &mut Text, lines: &[Text]) -> Result<(), AllocError>
    ensures { OnOk result (into.new ≡ into.old ++ joined lines.now) }
{
    let [first, others @ ..] = lines else {
        return Ok(());
    };
    into.push_str("  ")?;
    into.push_str(first.as_str())?;
    for line in others {
        into.push_str(",\n  ")?;
        into.push_str(line.as_str())?;
    }
    Ok(())
}

fn push_start(into: &mut Text, start: Option<u64>) -> Result<(), AllocError>
    ensures { OnOk result (into.new ≡ into.old ++ printed_start start) }
{
    match start {
        None => Ok(()),
        Some(number) => {
            into.push_str(" AUTO_INCREMENT=")?;
            into.push_number(i128::from(number))?;
            Ok(())
        }
    }
}

fn push_comment(into: &mut Text, comment: &Chars) -> Result<(), AllocError>
    ensures { OnOk result (into.new ≡ into.old ++ printed_comment comment.now) }
{
    if comment.as_str().is_empty() {
        return Ok(());
    }
    into.push_str(" COMMENT=")?;
    print_value(&Value::Text(comment.copy()?), into)
}

#[tactic(auto, unfolding(crate::specs::SchemaText::printed_schema))]
fn text_of(alloc: Global, schema: &Schema) -> Result<Text, AllocError>
    ensures { IfOk result (λ text. text ≡ printed_schema schema.now) }
{
    let lines = lines_of(alloc, schema)?;
    let mut text = Text::new(alloc);
    text.push_str("CREATE TABLE ")?;
    push_quoted(&mut text, schema.name.as_str())?;
    text.push_str(" (\n")?;
    push_joined(&mut text, lines.as_slice())?;
    text.push_str("\n)")?;
    push_start(&mut text, schema.start)?;
    push_comment(&mut text, &schema.comment)?;
    text.push_str("\n")?;
    Ok(text)
}

/// Adds the schema's text at the end of a text.
pub fn print_schema(schema: &Schema, into: &mut Text) -> Result<(), AllocError>
    ensures ok { OnOk result (into.new ≡ into.old ++ printed_schema schema.now) }
    ensures err { OnErr result (into.new ≡ into.old) }
{
    let text = text_of(into.allocator(), schema)?;
    into.push_str(text.as_str())
}

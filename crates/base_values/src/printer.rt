//! Values and rows as texts, each as the literal that reads back as it.

ghost use Rattle.std.specs.Prelude.{◌≡◌, ◌++◌, ◌<◌, false, codes, encode_utf8, IfOk, OnOk, OnErr};
ghost use Rattle.std.specs.Fmt.{digit_glyph};
ghost use Rattle.std.specs.List.{flat_map};
ghost use Rattle.base_values.specs.Literals.{escaped, hexadecimal, printed, listed, printed_row};

use crate::text::Text;
use crate::value::Value;
use std::alloc::{AllocError, Global};

/// Adds the value's literal at the end of the text.
#[tactic(auto, unfolding(crate::specs::Literals::printed))]
pub fn print_value(value: &Value, into: &mut Text) -> Result<(), AllocError>
    ensures ok { OnOk result (into.new ≡ into.old ++ printed value.now) }
    ensures err { OnErr result (into.new ≡ into.old) }
{
    match value {
        Value::Null => into.push_str("NULL"),
        Value::Num(number) => into.push_number(*number),
        Value::Text(chars) => {
            // Built aside and added once: where memory runs out, the text is as it was.
            let quoted = quoted_text(into.allocator(), chars.as_str())?;
            into.push_str(quoted.as_str())
        }
        Value::Blob(blob) => {
            let quoted = quoted_bytes(into.allocator(), blob.as_slice())?;
            into.push_str(quoted.as_str())
        }
    }
}

fn quoted_text(alloc: Global, text: &str) -> Result<Text, AllocError>
    ensures { IfOk result (λ quoted. quoted ≡ codes "'" ++ flat_map escaped text.now ++ codes "'") }
{
    let mut quoted = Text::with_capacity(alloc, text.len() + 2)?;
    quoted.push_str("'")?;
    for character in text.chars() {
        push_escaped(&mut quoted, character)?;
    }
    quoted.push_str("'")?;
    Ok(quoted)
}

#[tactic(auto, using(crate::proofs::Escapes::plain_encoded))]
fn push_escaped(into: &mut Text, character: char) -> Result<(), AllocError>
    ensures { OnOk result (into.new ≡ into.old ++ flat_map escaped (encode_utf8 character)) }
{
    match character {
        '\'' => into.push_str("''"),
        '\\' => into.push_str("\\\\"),
        '\n' => into.push_str("\\n"),
        '\r' => into.push_str("\\r"),
        '\t' => into.push_str("\\t"),
        '\0' => into.push_str("\\0"),
        plain => into.push_char(plain),
    }
}

fn quoted_bytes(alloc: Global, bytes: &[u8]) -> Result<Text, AllocError>
    ensures { IfOk result (λ quoted. quoted ≡ codes "x'" ++ flat_map hexadecimal bytes.now ++ codes "'") }
{
    let mut quoted = Text::new(alloc);
    quoted.push_str("x'")?;
    for byte in bytes {
        quoted.push_char(digit(*byte / 16))?;
        quoted.push_char(digit(*byte % 16))?;
    }
    quoted.push_str("'")?;
    Ok(quoted)
}

/// The hexadecimal digit of a number below 16.
fn digit(number: u8) -> char
    requires { number < 16 }
    ensures { result ≡ digit_glyph false number }
{
    if number < 10 {
        char::from(b'0' + number)
    } else {
        char::from(b'a' + (number - 10))
    }
}

/// Adds the row's values at the end of the text, in parentheses and with commas between them.
#[tactic(auto, unfolding(crate::specs::Literals::printed_row))]
pub fn print_row(row: &[Value], into: &mut Text) -> Result<(), AllocError>
    ensures ok { OnOk result (into.new ≡ into.old ++ printed_row row.now) }
    ensures err { OnErr result (into.new ≡ into.old) }
{
    let mut printed = Text::with_capacity(into.allocator(), 16 * row.len())?;
    printed.push_str("(")?;
    push_listed(row, &mut printed)?;
    printed.push_str(")")?;
    into.push_str(printed.as_str())
}

#[tactic(auto, unfolding(crate::specs::Literals::listed))]
fn push_listed(values: &[Value], into: &mut Text) -> Result<(), AllocError>
    ensures { OnOk result (into.new ≡ into.old ++ listed values.now) }
{
    let [first, rest @ ..] = values else {
        return Ok(());
    };
    print_value(first, into)?;
    for value in rest {
        into.push_str(", ")?;
        print_value(value, into)?;
    }
    Ok(())
}

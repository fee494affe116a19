//! What words stand for.

ghost use Rattle.std.specs.Prelude.{◌≡◌, ◌++◌, ◌<◌, ◌&&◌, nat_lt, length, slice_index, IfOk, OnOk, IsTrue, option_map};
ghost use Rattle.std.specs.List.{prefix_len};
ghost use Rattle.std.specs.String.{string_bytes};
ghost use Rattle.sql_words.specs.Characters.{is_quote, is_plain};
ghost use Rattle.sql_words.specs.Quoted.{value_of, escaped, text_inside, bytes_inside};
ghost use Rattle.sql_words.specs.Meanings.{is_all, is_quoted_name, quoted_name, is_text, written_text, is_bytes, written_bytes};

use crate::characters::{hex_digit, is_plain, is_quote};
use crate::front::{begins_bytes, is_number};
use crate::quoted::{bytes_length, is_pair, name_length, stands_at, text_length};
use crate::word::{Word, WordClass};
use std::alloc::{AllocError, Global};

impl<'a> Word<'a> {
    ghost use Rattle.std.specs.Prelude.{◌≡◌, IfOk, option_map};
    ghost use Rattle.std.specs.String.{string_bytes};
    ghost use Rattle.sql_words.specs.Meanings.{name_of, text_value, written_text, bytes_value, written_bytes, number_value};

    /// The name that the word is, without its backquotes, or None where it is no name.
    pub fn name(&self) -> Option<&'a str>
        ensures { option_map (λ name. name.now) result ≡ name_of self.now.class self.now.text.now }
    {
        match self.class {
            WordClass::Name => Some(self.text),
            WordClass::Quoted => between_backquotes(self.text),
            _ => None,
        }
    }

    /// The text that the word stands for, or None where it is no text.
    pub fn text_value(&self, alloc: Global) -> Result<Option<String>, AllocError>
        ensures { IfOk result (λ found. option_map string_bytes found ≡ text_value self.now.text.now) }
    {
        let bytes = self.text.as_bytes();
        if !is_text(bytes) {
            return Ok(None);
        }
        unquoted(alloc, bytes[0], &self.text[1..])
    }

    /// What is between the quotes, as it is written, or None where the word is no text.
    pub fn written_text(&self) -> Option<&'a str>
        ensures { option_map (λ text. text.now) result ≡ written_text self.now.text.now }
    {
        between_quotes(self.text)
    }

    /// The bytes that the word stands for, or None where it is no bytes.
    pub fn bytes_value(&self, alloc: Global) -> Result<Option<Vec<u8>>, AllocError>
        ensures { IfOk result (λ found. option_map (λ v. v.items) found ≡ bytes_value self.now.text.now) }
    {
        let bytes = self.text.as_bytes();
        if !is_bytes(bytes) {
            return Ok(None);
        }
        unhexed(alloc, &bytes[2..])
    }

    /// The digits between the quotes, as they are written, or None where the word is no bytes.
    pub fn written_bytes(&self) -> Option<&'a str>
        ensures { option_map (λ digits. digits.now) result ≡ written_bytes self.now.text.now }
    {
        digits_between_quotes(self.text)
    }

    /// The number that the word stands for, or None where it is no number of 1 to 38 digits.
    pub fn number_value(&self) -> Option<i128>
        ensures { result ≡ number_value self.now.text.now }
    {
        if is_number(self.text.as_bytes()) {
            self.text.parse::<i128>().ok()
        } else {
            None
        }
    }
}

fn is_all(length: Option<usize>, bytes: &[u8]) -> bool
    ensures { result ≡ is_all length bytes.now }
{
    match length {
        None => false,
        Some(length) => length == bytes.len(),
    }
}

fn is_quoted_name(bytes: &[u8]) -> bool
    ensures { result ≡ is_quoted_name bytes.now }
{
    if bytes.is_empty() || bytes[0] != b'`' {
        return false;
    }
    let inside = &bytes[1..];
    is_all(name_length(inside), inside)
}

fn between_backquotes(text: &str) -> Option<&str>
    ensures { option_map (λ name. name.now) result ≡ quoted_name text.now }
{
    if is_quoted_name(text.as_bytes()) {
        Some(&text[1..text.len() - 1])
    } else {
        None
    }
}

fn is_text(bytes: &[u8]) -> bool
    ensures { result ≡ is_text bytes.now }
{
    if bytes.is_empty() || !is_quote(bytes[0]) {
        return false;
    }
    let inside = &bytes[1..];
    is_all(text_length(bytes[0], inside), inside)
}

fn is_bytes(bytes: &[u8]) -> bool
    ensures { result ≡ is_bytes bytes.now }
{
    if !begins_bytes(bytes) {
        return false;
    }
    let inside = &bytes[2..];
    is_all(bytes_length(inside), inside)
}

fn between_quotes(text: &str) -> Option<&str>
    ensures { option_map (λ inside. inside.now) result ≡ written_text text.now }
{
    if is_text(text.as_bytes()) {
        Some(&text[1..text.len() - 1])
    } else {
        None
    }
}

fn digits_between_quotes(text: &str) -> Option<&str>
    ensures { option_map (λ inside. inside.now) result ≡ written_bytes text.now }
{
    if is_bytes(text.as_bytes()) {
        Some(&text[2..text.len() - 1])
    } else {
        None
    }
}

/// Appends the character that a backslash and this one stand for.
fn push_escaped(text: &mut String, byte: u8) -> Result<(), AllocError>
    requires { byte < 128 }
    ensures { OnOk result (string_bytes text.new ≡ string_bytes text.old ++ escaped byte) }
{
    match byte {
        b'0' => text.push('\0'),
        b'b' => text.push('\x08'),
        b'n' => text.push('\n'),
        b'r' => text.push('\r'),
        b't' => text.push('\t'),
        b'Z' => text.push('\x1a'),
        b'%' => text.push_str("\\%"),
        b'_' => text.push_str("\\_"),
        _ => text.push(byte as char),
    }
}

fn is_ascii_at(bytes: &[u8], at: usize) -> bool
    ensures { result ≡ (nat_lt at (length bytes.now) && nat_lt (slice_index bytes.now at) 128) }
{
    at < bytes.len() && bytes[at].is_ascii()
}

fn plain_length(quote: u8, bytes: &[u8]) -> usize
    ensures { result ≡ prefix_len (is_plain quote) bytes.now }
{
    bytes
        .iter()
        .take_while(|byte| is_plain(quote, **byte))
        .count()
}

/// What is between the quotes, from after the opening one, or None where none closes it.
fn unquoted(alloc: Global, quote: u8, text: &str) -> Result<Option<String>, AllocError>
    requires { IsTrue (is_quote quote) }
    ensures { IfOk result (λ found. option_map string_bytes found ≡ value_of (text_inside quote text.now)) }
{
    let mut value = String::new(alloc);
    let mut rest = text;
    while !rest.is_empty() {
        let (plain, after) = rest.split_at(plain_length(quote, rest.as_bytes()));
        value.push_str(plain)?;
        let bytes = after.as_bytes();
        if bytes.is_empty() {
            return Ok(None);
        }
        if bytes[0] == quote {
            if !stands_at(quote, bytes, 1) {
                return Ok(Some(value));
            }
            value.push(quote as char)?;
            rest = &after[2..];
        } else if is_ascii_at(bytes, 1) {
            push_escaped(&mut value, bytes[1])?;
            rest = &after[2..];
        } else {
            rest = &after[1..];
        }
    }
    Ok(None)
}

/// What the digits after `x'` stand for, or None where no quote closes them.
fn unhexed(alloc: Global, bytes: &[u8]) -> Result<Option<Vec<u8>>, AllocError>
    ensures { IfOk result (λ found. option_map (λ v. v.items) found ≡ value_of (bytes_inside bytes.now)) }
{
    let mut value = Vec::new(alloc);
    let mut at = 0;
    while is_pair(bytes, at) {
        value.push(16 * hex_digit(bytes[at]) + hex_digit(bytes[at + 1]))?;
        at += 2;
    }
    if stands_at(b'\'', bytes, at) {
        Ok(Some(value))
    } else {
        Ok(None)
    }
}

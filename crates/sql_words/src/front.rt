//! What is at the front of a rest of a text.

ghost use Rattle.std.specs.Prelude.{◌≡◌, ◌<◌, ◌≤◌, ◌+◌, ◌^◌, length, IsTrue};
ghost use Rattle.std.specs.Option.{ForSome};
ghost use Rattle.std.specs.List.{prefix_len};
ghost use Rattle.std.specs.Char.{is_ascii_digit};
ghost use Rattle.sql_words.specs.Front.{line_length, begins_comment, begins_bytes, bytes_length, bytes_or_name, name_length, quoted, begins_number, digit_count, sign_width, number, sign_length, front_at};
ghost use Rattle.sql_words.specs.Meanings.{is_number};

use crate::characters::{
    is_angle, is_name_byte, is_name_start, is_plus_or_minus, is_quote, is_sign, is_white,
};
use crate::quoted::{bytes_length, name_length, text_length};
use crate::word::{WordClass, WordFault};

/// What is at the front of a rest of a text.
#[derive(Clone, Copy)]
pub enum Front {
    /// White space or a comment, of this many bytes.
    Gap(usize),
    /// A word, of this many bytes.
    Found(WordClass, usize),
}

impl Front {
    ghost use Rattle.sql_words.specs.Front.{size_of};

    /// How many bytes it has.
    pub fn length(self) -> usize
        ensures { result ≡ size_of self }
    {
        match self {
            Front::Gap(length) | Front::Found(_, length) => length,
        }
    }
}

const MOST_DIGITS: usize = 38;

fn line_length(bytes: &[u8]) -> usize
    ensures { result ≡ line_length bytes.now }
{
    bytes.iter().take_while(|byte| **byte != b'\n').count()
}

fn begins_comment(bytes: &[u8]) -> bool
    requires { 0 < length bytes.now }
    ensures { result ≡ begins_comment bytes.now }
{
    bytes[0] == b'#' || bytes.starts_with(b"-- ")
}

fn unquoted_length(bytes: &[u8]) -> usize
    ensures { result ≡ name_length bytes.now }
{
    bytes.iter().take_while(|byte| is_name_byte(**byte)).count()
}

/// Whether x' or X' is at the front.
pub fn begins_bytes(bytes: &[u8]) -> bool
    ensures begins { result ≡ begins_bytes bytes.now }
    ensures long { IsTrue result → 2 ≤ length bytes.now }
{
    bytes.starts_with(b"x'") || bytes.starts_with(b"X'")
}

fn whole_bytes(bytes: &[u8]) -> Option<usize>
    ensures { result ≡ bytes_length bytes.now }
{
    if !begins_bytes(bytes) {
        return None;
    }
    let inside = bytes_length(&bytes[2..])?;
    Some(2 + inside)
}

fn name_or_bytes(bytes: &[u8]) -> Front
    ensures { result ≡ bytes_or_name (bytes_length bytes.now) (name_length bytes.now) }
{
    match whole_bytes(bytes) {
        Some(length) => Front::Found(WordClass::Bytes, length),
        None => Front::Found(WordClass::Name, unquoted_length(bytes)),
    }
}

fn sign_width(bytes: &[u8]) -> usize
    requires { 0 < length bytes.now }
    ensures { result ≡ sign_width bytes.now }
{
    if is_plus_or_minus(bytes[0]) { 1 } else { 0 }
}

fn begins_number(bytes: &[u8]) -> bool
    requires { 0 < length bytes.now }
    ensures { result ≡ begins_number bytes.now }
{
    let sign = sign_width(bytes);
    sign < bytes.len() && bytes[sign].is_ascii_digit()
}

fn digit_count(digits: &[u8]) -> usize
    ensures { result ≡ prefix_len is_ascii_digit digits.now }
{
    digits
        .iter()
        .take_while(|byte| byte.is_ascii_digit())
        .count()
}

fn number(place: usize, bytes: &[u8]) -> Result<Front, WordFault>
    requires { 0 < length bytes.now }
    ensures { result ≡ number place bytes.now }
{
    let sign = sign_width(bytes);
    let digits = digit_count(&bytes[sign..]);
    if digits > MOST_DIGITS {
        return Err(WordFault::TooLong { place });
    }
    Ok(Front::Found(WordClass::Number, sign + digits))
}

fn sign_length(bytes: &[u8]) -> usize
    requires { 0 < length bytes.now }
    ensures { result ≡ sign_length bytes.now }
{
    if is_angle(bytes[0]) && bytes.len() > 1 && bytes[1] == b'=' {
        2
    } else {
        1
    }
}

/// A quoted word whose opening quote is at this place, by its length after that quote.
fn quoted(place: usize, class: WordClass, inside: Option<usize>) -> Result<Front, WordFault>
    requires { ForSome inside (λ n. n + 1 < 2 ^ 64) }
    ensures { result ≡ quoted place class inside }
{
    match inside {
        None => Err(WordFault::Unclosed { place }),
        Some(length) => Ok(Front::Found(class, 1 + length)),
    }
}

#[tactic(auto, unfolding(crate::specs::Front::front_at))]
pub fn front_at(place: usize, bytes: &[u8]) -> Result<Front, WordFault>
    requires { 0 < length bytes.now }
    ensures { result ≡ front_at place bytes.now }
{
    let first = bytes[0];
    if is_white(first) {
        Ok(Front::Gap(1))
    } else if begins_comment(bytes) {
        Ok(Front::Gap(line_length(bytes)))
    } else if is_name_start(first) {
        Ok(name_or_bytes(bytes))
    } else if begins_number(bytes) {
        number(place, bytes)
    } else if is_quote(first) {
        quoted(place, WordClass::Text, text_length(first, &bytes[1..]))
    } else if first == b'`' {
        quoted(place, WordClass::Quoted, name_length(&bytes[1..]))
    } else if is_sign(first) {
        Ok(Front::Found(WordClass::Sign, sign_length(bytes)))
    } else {
        Err(WordFault::Odd { place })
    }
}

/// Whether the bytes are one number, and nothing more.
pub fn is_number(bytes: &[u8]) -> bool
    ensures { result ≡ is_number bytes.now }
{
    if bytes.is_empty() || !begins_number(bytes) {
        return false;
    }
    let sign = sign_width(bytes);
    let digits = digit_count(&bytes[sign..]);
    digits <= MOST_DIGITS && sign + digits == bytes.len()
}

//! The bytes by which words are distinguished.

ghost use Rattle.std.specs.Prelude.{◌≡◌, ◌<◌, IsTrue};
ghost use Rattle.std.specs.Char.{is_ascii_hexdigit, digit_value};
ghost use Rattle.sql_words.specs.Characters.{is_white, is_name_start, is_name_byte, is_plus_or_minus, is_quote, is_plain, is_angle, is_sign};

/// Whether the byte is white space: blank, tab, line feed or carriage return.
pub fn is_white(byte: u8) -> bool
    ensures { result ≡ is_white byte }
{
    matches!(byte, b' ' | b'\t' | b'\n' | b'\r')
}

/// Whether the byte begins an unquoted name.
pub fn is_name_start(byte: u8) -> bool
    ensures { result ≡ is_name_start byte }
{
    byte.is_ascii_alphabetic() || byte == b'_' || byte == b'$'
}

/// Whether the byte goes on with an unquoted name.
pub fn is_name_byte(byte: u8) -> bool
    ensures { result ≡ is_name_byte byte }
{
    is_name_start(byte) || byte.is_ascii_digit()
}

/// Whether the byte is the sign of a number.
pub fn is_plus_or_minus(byte: u8) -> bool
    ensures { result ≡ is_plus_or_minus byte }
{
    byte == b'+' || byte == b'-'
}

/// Whether the byte opens a text.
pub fn is_quote(byte: u8) -> bool
    ensures { result ≡ is_quote byte }
{
    byte == b'\'' || byte == b'"'
}

/// A byte of a text that is neither its quote nor a backslash.
pub fn is_plain(quote: u8, byte: u8) -> bool
    ensures { result ≡ is_plain quote byte }
{
    byte != quote && byte != b'\\'
}

/// Whether the byte is `<` or `>`.
pub fn is_angle(byte: u8) -> bool
    ensures { result ≡ is_angle byte }
{
    byte == b'<' || byte == b'>'
}

/// Whether the byte is a sign of one character.
pub fn is_sign(byte: u8) -> bool
    ensures { result ≡ is_sign byte }
{
    is_angle(byte) || matches!(byte, b'(' | b')' | b',' | b';' | b'=' | b'*')
}

/// What a hexadecimal digit stands for.
pub fn hex_digit(byte: u8) -> u8
    requires { IsTrue (is_ascii_hexdigit byte) }
    ensures value { result ≡ digit_value byte }
    ensures small { result < 16 }
{
    match byte {
        b'0'..=b'9' => byte - b'0',
        b'A'..=b'F' => byte - b'A' + 10,
        _ => byte - b'a' + 10,
    }
}

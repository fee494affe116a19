//! How far a quoted word reaches.

ghost use Rattle.std.specs.Prelude.{◌≡◌, ◌==◌, ◌+◌, ◌&&◌, ◌≤◌, slice_index, length, drop, IfSome};
ghost use Rattle.std.specs.List.{position_or_len};
ghost use Rattle.std.specs.Char.{is_ascii_hexdigit};
ghost use Rattle.sql_words.specs.Characters.{begins_with};
ghost use Rattle.sql_words.specs.Quoted.{length_of, text_inside, bytes_inside, name_inside};

/// Whether this byte is at this index.
pub fn stands_at(byte: u8, bytes: &[u8], at: usize) -> bool
    ensures { result ≡ begins_with byte (drop at bytes.now) }
{
    at < bytes.len() && bytes[at] == byte
}

/// The length of a text after its opening quote, with the closing one.
pub fn text_length(quote: u8, bytes: &[u8]) -> Option<usize>
    ensures length { result ≡ length_of (text_inside quote bytes.now) }
    ensures within { IfSome result (λ n. n ≤ length bytes.now) }
{
    let mut at = 0;
    while at < bytes.len() {
        if bytes[at] != quote {
            at += if bytes[at] == b'\\' { 2 } else { 1 };
        } else if stands_at(quote, bytes, at + 1) {
            at += 2;
        } else {
            return Some(at + 1);
        }
    }
    None
}

/// Whether two hexadecimal digits are at this index.
pub fn is_pair(bytes: &[u8], at: usize) -> bool
    ensures { result ≡ (is_ascii_hexdigit (slice_index bytes.now at) && is_ascii_hexdigit (slice_index bytes.now (at + 1))) }
{
    at < bytes.len()
        && bytes[at].is_ascii_hexdigit()
        && at + 1 < bytes.len()
        && bytes[at + 1].is_ascii_hexdigit()
}

/// The length of bytes after `x'`, with the closing quote.
pub fn bytes_length(bytes: &[u8]) -> Option<usize>
    ensures length { result ≡ length_of (bytes_inside bytes.now) }
    ensures within { IfSome result (λ n. n ≤ length bytes.now) }
{
    let mut at = 0;
    while is_pair(bytes, at) {
        at += 2;
    }
    if stands_at(b'\'', bytes, at) {
        Some(at + 1)
    } else {
        None
    }
}

fn name_end(bytes: &[u8]) -> usize
    ensures { result ≡ position_or_len (λ b. b == 96) bytes.now }
{
    bytes.iter().take_while(|byte| **byte != b'`').count()
}

/// The length of a name after its opening backquote, with the closing one.
#[tactic(auto, unfolding(crate::specs::Quoted::name_inside))]
pub fn name_length(bytes: &[u8]) -> Option<usize>
    ensures length { result ≡ length_of (name_inside bytes.now) }
    ensures within { IfSome result (λ n. n ≤ length bytes.now) }
{
    let end = name_end(bytes);
    if end < bytes.len() {
        Some(end + 1)
    } else {
        None
    }
}

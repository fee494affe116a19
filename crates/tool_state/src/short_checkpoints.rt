//! Whether the value of a checkpoint has room in its column. Nothing here takes memory: what would be printed is counted.

ghost use Rattle.std.specs.Prelude.{◌≡◌, codes, ◌++◌, min, is_some};
ghost use Rattle.std.specs.Fmt.{signed_decimal};
ghost use Rattle.std.specs.List.{flat_map};
ghost use Rattle.base_values.specs.Literals.{escaped, hexadecimal, printed, listed, printed_row};
ghost use Rattle.base_values.specs.StoredValues.{character_count};
ghost use Rattle.tool_changelog.specs.Checkpoints.{reach_text, checkpoint_value};
ghost use Rattle.tool_program.specs.ChunkCopier.Reaches.{reach_meant};

use base_values::{Value, character_count};
use itoa::Buffer;
use tool_program::chunk_copier::ReachView;

/// How many characters the value of a row of the changelog has at most.
const MOST_CHARACTERS: usize = 255;

/// How many characters stand between quotes for a text's byte.
#[tactic(auto, unfolding(base_values::specs::StoredValues::character_count))]
fn escaped_characters(byte: u8) -> usize
    ensures { result ≡ character_count (escaped byte) }
{
    match byte {
        b'\'' | b'\\' | b'\n' | b'\r' | b'\t' | 0 => 2,
        128..=191 => 0,
        _ => 1,
    }
}

/// How many characters stand between quotes for a text.
fn text_characters(text: &[u8]) -> usize
    ensures { result ≡ min (character_count (flat_map escaped text.now)) usize.MAX }
{
    let mut count: usize = 0;
    for byte in text {
        count = count.saturating_add(escaped_characters(*byte));
    }
    count
}

/// How many characters stand between quotes for bytes: two hexadecimal digits for each.
fn byte_characters(bytes: &[u8]) -> usize
    ensures { result ≡ min (character_count (flat_map hexadecimal bytes.now)) usize.MAX }
{
    let mut count: usize = 0;
    for byte in bytes {
        let _byte = *byte;
        count = count.saturating_add(2);
    }
    count
}

/// How many characters are printed for a number.
fn number_characters(number: i128) -> usize
    ensures { result ≡ min (character_count (signed_decimal number)) usize.MAX }
{
    character_count(Buffer::new().format(number))
}

/// How many characters are printed for a value.
#[tactic(auto, using(crate::proofs::Characters::number_printed))]
fn value_characters(value: &Value) -> usize
    ensures { result ≡ min (character_count (printed value.now)) usize.MAX }
{
    match value {
        Value::Null => 4,
        Value::Num(number) => number_characters(*number),
        Value::Text(text) => text_characters(text.as_str().as_bytes()).saturating_add(2),
        Value::Blob(bytes) => byte_characters(bytes.as_slice()).saturating_add(3),
    }
}

/// How many characters are printed for the values that follow another, with a comma and a blank before each.
fn following_characters(values: &[Value]) -> usize
    ensures { result ≡ min (character_count (flat_map (λ next. codes ", " ++ printed next) values.now)) usize.MAX }
{
    let mut count: usize = 0;
    for value in values {
        let own = value_characters(value).saturating_add(2);
        count = count.saturating_add(own);
    }
    count
}

#[tactic(auto, using(crate::proofs::Characters::none, crate::proofs::Characters::listed_count), unfolding(base_values::specs::Literals::listed))]
fn listed_characters(values: &[Value]) -> usize
    ensures { result ≡ min (character_count (listed values.now)) usize.MAX }
{
    match values {
        [first, rest @ ..] => value_characters(first).saturating_add(following_characters(rest)),
        [] => 0,
    }
}

#[tactic(auto, using(crate::proofs::Characters::row_count, crate::proofs::Characters::added))]
fn reach_characters(reach: ReachView<'_>) -> usize
    ensures { result ≡ min (character_count (reach_text (reach_meant reach.entry))) usize.MAX }
{
    match reach {
        ReachView::Nothing => 1,
        ReachView::To(key) => listed_characters(key).saturating_add(2),
        ReachView::All => 1,
    }
}

/// Whether the value of a checkpoint has at most 255 characters, as its column.
pub fn is_short(position: u64, reach: ReachView<'_>) -> bool
    ensures { result ≡ is_some (checkpoint_value position (reach_meant reach.entry)) }
{
    number_characters(i128::from(position))
        .saturating_add(1)
        .saturating_add(reach_characters(reach))
        <= MOST_CHARACTERS
}

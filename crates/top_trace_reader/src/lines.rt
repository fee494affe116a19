//! The lines of a trace.

ghost use Rattle.std.specs.Prelude.{◌≡◌, ◌++◌, ◌∷◌, ◌<◌, drop, length, map, option_map, IfOk, IfSome, OnOk};
ghost use Rattle.std.specs.List.{flat_map, join_with_byte, list_any};
ghost use Rattle.top_trace_reader.specs.Lines.{is_journal, is_names_line, is_table_line, journal_place, lines_of, names_columns, opens, parts_around, parts_data, parts_of, place_with, words_of};

use std::alloc::{AllocError, Global};

/// What is between the line feeds of a text.
pub(crate) fn lines_of(alloc: Global, text: &[u8]) -> Result<Vec<&[u8]>, AllocError>
    ensures { IfOk result (λ lines. map (λ line. line.now) lines.items ≡ lines_of text.now) }
{
    text.split(|byte| *byte == b'\n').collect(alloc)
}

/// What is between the blanks of a line.
pub(crate) fn words_of(alloc: Global, line: &str) -> Result<Vec<&str>, AllocError>
    ensures { IfOk result (λ words. map (λ word. word.now) words.items ≡ words_of line.now) }
{
    line.split(' ').collect(alloc)
}

fn is_journal(line: &[u8]) -> bool
    ensures { result ≡ is_journal line.now }
{
    line == b"#journal".as_slice()
}

/// The place of the last `#journal` line, where a line more is looked at.
fn place_with(place: usize, line: &[u8], last: Option<usize>) -> Option<usize>
    ensures { result ≡ place_with place (is_journal line.now) last }
{
    if is_journal(line) { Some(place) } else { last }
}

/// The place of the last line that is `#journal`.
#[tactic(auto, unfolding(crate::specs::Lines::journal_place))]
fn journal_place(lines: &[&[u8]]) -> Option<usize>
    ensures place { result ≡ journal_place (map (λ line. line.now) lines.now) }
    ensures within { IfSome result (λ place. place < length lines.now) }
{
    let mut last = None;
    for (place, line) in lines.iter().enumerate() {
        last = place_with(place, line, last);
    }
    last
}

/// Adds a line feed and a line.
fn push_line(text: &mut Vec<u8>, line: &[u8]) -> Result<(), AllocError>
    ensures { OnOk result (text.new.items ≡ text.old.items ++ 10 ∷ line.now) }
{
    text.push(b'\n')?;
    text.extend_from_slice(line)
}

fn push_lines(text: &mut Vec<u8>, lines: &[&[u8]]) -> Result<(), AllocError>
    ensures { OnOk result (text.new.items ≡ text.old.items ++ flat_map (λ line. 10 ∷ line.now) lines.now) }
{
    for line in lines {
        push_line(text, line)?;
    }
    Ok(())
}

/// The bytes after the first.
#[tactic(auto, using(crate::proofs::Places::none_dropped))]
fn without_first(mut text: Vec<u8>) -> Vec<u8>
    ensures { result.items ≡ drop 1 text.items }
{
    if text.is_empty() {
        return text;
    }
    let _ = text.remove(0);
    text
}

/// The lines with a line feed between two.
fn joined(alloc: Global, lines: &[&[u8]]) -> Result<Vec<u8>, AllocError>
    ensures { IfOk result (λ text. text.items ≡ join_with_byte 10 (map (λ line. line.now) lines.now)) }
{
    let mut text = Vec::new(alloc);
    push_lines(&mut text, lines)?;
    Ok(without_first(text))
}

/// What comes before the last `#journal` line, and the lines after it.
#[derive(Drop)]
pub(crate) struct Parts<'a> {
    pub plan: Vec<u8>,
    pub lines: &'a [&'a [u8]],
}

/// The plan before the last `#journal` line, and the lines after it.
#[tactic(auto, unfolding(crate::specs::Lines::parts_of))]
pub(crate) fn parts_of<'a>(
    alloc: Global,
    lines: &'a [&'a [u8]],
) -> Result<Option<Parts<'a>>, AllocError>
    ensures { IfOk result (λ parts. option_map parts_data parts ≡ parts_of (map (λ line. line.now) lines.now)) }
{
    match journal_place(lines) {
        None => Ok(None),
        Some(place) => Ok(Some(Parts {
            plan: joined(alloc, &lines[..place])?,
            lines: &lines[place + 1..],
        })),
    }
}

fn opens(word: &str) -> bool
    ensures { result ≡ opens word.now }
{
    match word.as_bytes() {
        [] => false,
        [byte, ..] => *byte == b'(',
    }
}

fn any_opens(words: &[&str]) -> bool
    ensures { result ≡ list_any (λ word. opens word.now) words.now }
{
    words.iter().any(|word| opens(word))
}

/// Whether a parenthesis is in front of one of the words.
#[tactic(auto, using(crate::proofs::Places::any_opens))]
fn has_columns(words: &[&str]) -> bool
    ensures { result ≡ list_any opens (map (λ word. word.now) words.now) }
{
    any_opens(words)
}

fn names_columns(words: &[&str]) -> bool
    ensures { result ≡ names_columns (map (λ word. word.now) words.now) }
{
    match words {
        [] => false,
        [_] => false,
        [first, _, others @ ..] => *first == "table" && has_columns(others),
    }
}

/// Whether it is the line of a table.
#[tactic(auto, unfolding(crate::specs::Lines::is_table_line))]
pub(crate) fn is_table_line(alloc: Global, line: &str) -> Result<bool, AllocError>
    ensures { IfOk result (λ is. is ≡ is_table_line line.now) }
{
    let words = words_of(alloc, line)?;
    Ok(names_columns(words.as_slice()) && line.as_bytes().ends_with(b")"))
}

/// Whether it is the line that names all tables that exist.
#[tactic(auto, unfolding(crate::specs::Lines::is_names_line))]
pub(crate) fn is_names_line(line: &str) -> bool
    ensures { result ≡ is_names_line line.now }
{
    line == "tables" || line.as_bytes().starts_with(b"tables ")
}

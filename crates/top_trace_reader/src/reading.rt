//! What was read so far, line by line.

ghost use Rattle.std.specs.Prelude.{◌≡◌, ◌++◌, ◌∷◌, [], map, option_map, option_to_list, IfOk, MatchOption, false, true};
ghost use Rattle.std.specs.Str.{is_utf8};
ghost use Rattle.base_values.specs.Faults.{Answers};
ghost use Rattle.top_trace_reader.specs.Readings.{after_left, after_left_row, after_line, after_names, after_row, after_rows, after_table, after_table_row, after_text, after_turn, after_turn_or_verdict, after_verdict, closed, is_rows, or_line, read_on, trace_in, whole, with_line, with_row, with_rows};

use crate::lines::{is_names_line, is_table_line, words_of};
use crate::literals::row_in;
use crate::turns::{TurnRead, turn_in};
use crate::verdicts::verdict_in;
use base_values::{Fault, Row, Rows, Sequence, Text};
use run_audit::{LineAnswer, PrintedTables, Trace, TraceLine, TraceLines};
use server_model::Verdict;
use std::alloc::{AllocError, Global};

/// A turn, of whose rows some are still to come.
#[derive(Drop)]
pub struct OpenTurn {
    /// The turns before it.
    pub lines: TraceLines,
    /// Its own line.
    pub line: TraceLine,
    /// Its rows so far.
    pub rows: Rows,
    /// How many are still to come.
    pub left: u64,
}

/// The turns, the verdict, and the tables so far.
#[derive(Drop)]
pub struct LeftTables {
    pub lines: TraceLines,
    pub verdict: Verdict,
    /// The tables that are whole.
    pub tables: PrintedTables,
    /// The table that rows may still follow.
    pub current: Option<Text>,
}

/// What was read so far, by what comes next.
#[derive(Drop)]
pub enum Reading {
    /// A turn or the verdict comes next.
    Turns(TraceLines),
    /// A row that the client of the last turn read comes next.
    RowsOf(OpenTurn),
    /// A table, a row of the last one, or the names of all comes next.
    Tables(LeftTables),
    /// The last line feed comes next.
    Named(Trace),
    /// Nothing comes next.
    Whole(Trace),
}

fn with_rows(line: TraceLine, rows: Rows) -> TraceLine
    ensures { result ≡ with_rows line rows }
{
    TraceLine {
        actor: line.actor,
        asked: line.asked,
        side: line.side,
        answer: LineAnswer::Rows(rows),
        drawn: line.drawn,
    }
}

fn with_turn(mut lines: TraceLines, line: TraceLine) -> Result<Reading, AllocError>
    ensures { IfOk result (λ reading. reading ≡ Reading.Turns (lines ++ line ∷ [])) }
{
    lines.push(line)?;
    Ok(Reading::Turns(lines))
}

fn after_rows(
    lines: TraceLines,
    line: TraceLine,
    rows: Rows,
    left: u64,
) -> Result<Reading, AllocError>
    ensures { IfOk result (λ reading. reading ≡ after_rows lines line rows left) }
{
    if left == 0 {
        with_turn(lines, with_rows(line, rows))
    } else {
        Ok(Reading::RowsOf(OpenTurn {
            lines,
            line,
            rows,
            left,
        }))
    }
}

fn is_rows(answer: &LineAnswer) -> bool
    ensures { result ≡ is_rows answer.now }
{
    matches!(answer, LineAnswer::Rows(_))
}

/// What was read, after a turn's own line.
fn after_turn(alloc: Global, lines: TraceLines, read: TurnRead) -> Result<Reading, AllocError>
    ensures { IfOk result (λ reading. reading ≡ after_turn lines read) }
{
    if is_rows(&read.line.answer) {
        after_rows(lines, read.line, Sequence::new(alloc), read.rows)
    } else {
        with_turn(lines, read.line)
    }
}

/// What was read, after a row of a turn.
fn after_row(turn: OpenTurn, row: Row) -> Result<Reading, AllocError>
    ensures { IfOk result (λ reading. reading ≡ after_row turn row) }
{
    let mut rows = turn.rows;
    rows.push(row)?;
    after_rows(turn.lines, turn.line, rows, turn.left.saturating_sub(1))
}

/// What was read, after the verdict.
fn after_verdict(alloc: Global, lines: TraceLines, verdict: Verdict) -> Reading
    ensures { result ≡ after_verdict lines verdict }
{
    Reading::Tables(LeftTables {
        lines,
        verdict,
        tables: Sequence::new(alloc),
        current: None,
    })
}

/// The tables with the one that rows may still follow.
fn closed(mut tables: PrintedTables, current: Option<Text>) -> Result<PrintedTables, AllocError>
    ensures { IfOk result (λ closed. closed ≡ tables ++ option_to_list current) }
{
    match current {
        Some(table) => {
            tables.push(table)?;
            Ok(tables)
        }
        None => Ok(tables),
    }
}

/// The table with a line more.
fn with_line(mut table: Text, line: &str) -> Result<Text, AllocError>
    ensures { IfOk result (λ longer. longer ≡ with_line table line.now) }
{
    table.push_str(line)?;
    table.push_str("\n")?;
    Ok(table)
}

/// What was read, after the line of a table.
fn after_table(alloc: Global, left: LeftTables, line: &str) -> Result<Reading, AllocError>
    ensures { IfOk result (λ reading. reading ≡ after_table left line.now) }
{
    Ok(Reading::Tables(LeftTables {
        lines: left.lines,
        verdict: left.verdict,
        tables: closed(left.tables, left.current)?,
        current: Some(with_line(Text::new(alloc), line)?),
    }))
}

/// What was read, after the names of all tables.
fn after_names(left: LeftTables) -> Result<Reading, AllocError>
    ensures { IfOk result (λ reading. reading ≡ after_names left) }
{
    Ok(Reading::Named(Trace {
        lines: left.lines,
        verdict: left.verdict,
        tables: closed(left.tables, left.current)?,
    }))
}

/// What was read, after a row of a table, where a table comes before it.
fn after_table_row(left: LeftTables, line: &str) -> Result<Option<Reading>, AllocError>
    ensures { IfOk result (λ reading. reading ≡ after_table_row left line.now) }
{
    let LeftTables {
        lines,
        verdict,
        tables,
        current,
    } = left;
    match current {
        Some(table) => Ok(Some(Reading::Tables(LeftTables {
            lines,
            verdict,
            tables,
            current: Some(with_line(table, line)?),
        }))),
        None => Ok(None),
    }
}

/// What was read, after another table, a row of the last one, or the names of all.
#[tactic(auto, unfolding(crate::specs::Readings::after_left))]
fn after_left(alloc: Global, left: LeftTables, line: &str) -> Result<Option<Reading>, AllocError>
    ensures { IfOk result (λ reading. reading ≡ after_left left line.now) }
{
    if is_table_line(alloc, line)? {
        return Ok(Some(after_table(alloc, left, line)?));
    }
    if is_names_line(line) {
        return Ok(Some(after_names(left)?));
    }
    match row_in(alloc, line)? {
        Some(_) => after_table_row(left, line),
        None => Ok(None),
    }
}

/// What was read, after the next turn or the verdict.
#[tactic(auto, unfolding(crate::specs::Readings::after_turn_or_verdict))]
fn after_turn_or_verdict(
    alloc: Global,
    clients: u32,
    lines: TraceLines,
    line: &str,
) -> Result<Option<Reading>, AllocError>
    ensures { IfOk result (λ reading. reading ≡ after_turn_or_verdict clients lines line.now) }
{
    let words = words_of(alloc, line)?;
    if let Some(read) = turn_in(alloc, clients, lines.len(), words.as_slice()) {
        return Ok(Some(after_turn(alloc, lines, read)?));
    }
    match verdict_in(alloc, line)? {
        Some(verdict) => Ok(Some(after_verdict(alloc, lines, verdict))),
        None => Ok(None),
    }
}

fn after_open(turn: OpenTurn, row: Option<Row>) -> Result<Option<Reading>, AllocError>
    ensures { IfOk result (λ reading. reading ≡ option_map (after_row turn) row) }
{
    match row {
        Some(row) => Ok(Some(after_row(turn, row)?)),
        None => Ok(None),
    }
}

/// What was read, after one line more, where such a line may come.
#[tactic(auto, unfolding(crate::specs::Readings::after_text))]
fn after_text(
    alloc: Global,
    clients: u32,
    reading: Reading,
    line: &str,
) -> Result<Option<Reading>, AllocError>
    ensures { IfOk result (λ next. next ≡ after_text clients reading line.now) }
{
    match reading {
        Reading::Turns(lines) => after_turn_or_verdict(alloc, clients, lines, line),
        Reading::RowsOf(turn) => after_open(turn, row_in(alloc, line)?),
        Reading::Tables(left) => after_left(alloc, left, line),
        Reading::Named(trace) if line.is_empty() => Ok(Some(Reading::Whole(trace))),
        Reading::Named(_) => Ok(None),
        Reading::Whole(_) => Ok(None),
    }
}

/// The bytes as a text, where they are UTF-8.
fn utf8(bytes: &[u8]) -> Option<&str>
    ensures { MatchOption result (is_utf8 bytes.now ≡ false) (λ text. (text.now ≡ bytes.now) × (is_utf8 bytes.now ≡ true)) }
{
    match std::str::from_utf8(bytes) {
        Ok(text) => Some(text),
        Err(_) => None,
    }
}

#[tactic(auto, unfolding(crate::specs::Readings::after_line))]
fn after_line(
    alloc: Global,
    clients: u32,
    reading: Reading,
    line: &[u8],
) -> Result<Option<Reading>, AllocError>
    ensures { IfOk result (λ next. next ≡ after_line clients reading line.now) }
{
    match utf8(line) {
        Some(line) => after_text(alloc, clients, reading, line),
        None => Ok(None),
    }
}

/// The same, where a line that may not come refuses all by its number.
fn read_line(
    alloc: Global,
    clients: u32,
    number: u64,
    reading: Reading,
    line: &[u8],
) -> Result<Reading, Fault<u64>>
    ensures { Answers (λ next. next) result (or_line number (after_line clients reading line.now)) }
{
    match after_line(alloc, clients, reading, line)? {
        Some(reading) => Ok(reading),
        None => Err(Fault::Refused(number)),
    }
}

/// The trace, where all of it was read.
fn whole(number: u64, reading: Reading) -> Result<Trace, Fault<u64>>
    ensures { Answers (λ trace. trace) result (whole number reading) }
{
    match reading {
        Reading::Whole(trace) => Ok(trace),
        Reading::Turns(_) | Reading::RowsOf(_) | Reading::Tables(_) | Reading::Named(_) => {
            Err(Fault::Refused(number))
        }
    }
}

/// The run that the lines say, of a plan with `clients` clients, or the number of the first that isn't one that may come.
#[tactic(auto, unfolding(crate::specs::Readings::read_on))]
pub(crate) fn trace_in(alloc: Global, clients: u32, lines: &[&[u8]]) -> Result<Trace, Fault<u64>>
    ensures { Answers (λ trace. trace) result (trace_in clients (map (λ line. line.now) lines.now)) }
{
    let mut reading = Reading::Turns(Sequence::new(alloc));
    let mut number: u64 = 1;
    for line in lines {
        let next = read_line(alloc, clients, number, reading, line)?;
        reading = next;
        number += 1;
    }
    whole(number, reading)
}

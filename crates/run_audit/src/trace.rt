//! A trace as it was read, and the answer to it.

use crate::line::TraceLines;
use base_values::{Name, Sequence, Text};
use server_model::Verdict;

/// Tables as they are printed: of each its line and those of its rows.
pub type PrintedTables = Sequence<Text>;

/// What a trace has after its plan.
#[derive(Drop)]
pub struct Trace {
    /// The turns.
    pub lines: TraceLines,
    /// How the run ended.
    pub verdict: Verdict,
    /// The tables that are left.
    pub tables: PrintedTables,
}

/// What an audit answers.
#[derive(Drop)]
pub enum Audit {
    /// No rule is broken.
    Yes,
    /// This turn is the least that breaks one of the rules of turns.
    Line(u64),
    /// No turn breaks one; this table is the first that isn't what the turns leave.
    Table(Name),
    /// The tables are those too; the verdict isn't one of these turns.
    Verdict,
}

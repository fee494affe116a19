//! What a report says, line by line.

use base_values::Text;

/// What a report must say.
#[derive(Drop)]
pub(crate) struct Said {
    /// Whether the ALTER was done.
    pub(crate) altered: bool,
    /// The lines of the clients and of the tables.
    pub(crate) middle: Text,
    /// The line of the history; empty where it isn't shown.
    pub(crate) history: Text,
    /// Whether the turns are shown.
    pub(crate) shows_turns: bool,
}

/// Whether a verdict's line says so of the ALTER: `done` says that it was done, `reverted` that it wasn't, and `unfinished`
/// nothing.
fn is_verdict(line: &str, altered: bool) -> bool {
    if line == "done" {
        altered
    } else if line.starts_with("reverted ") {
        !altered
    } else {
        line == "unfinished"
    }
}

/// Whether these are the lines after the one of the tables' names: the history, and then the turns or none.
fn is_end(lines: &str, said: &Said) -> bool {
    match lines.strip_prefix(said.history.as_str()) {
        Some(turns) if said.shows_turns => turns.starts_with("turns "),
        Some(turns) => turns.is_empty(),
        None => false,
    }
}

/// Whether these are the lines from the one of the tables' names on. The names themselves aren't compared.
fn is_tail(lines: &str, said: &Said) -> bool {
    match lines.split_once('\n') {
        Some((names, end)) => names.starts_with("tables ") && is_end(end, said),
        None => false,
    }
}

/// Whether the report says this.
pub(crate) fn statement_result(report: &str, said: &Said) -> bool {
    let Some((verdict, rest)) = report.split_once('\n') else {
        return false;
    };
    match rest.strip_prefix(said.middle.as_str()) {
        Some(tail) => is_verdict(verdict, said.altered) && is_tail(tail, said),
        None => false,
    }
}

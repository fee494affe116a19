//! Hint rows: the rows of the changelog that tell the applier how far it must come before the tables are exchanged.

ghost use Rattle.std.specs.Prelude.{◌≡◌, IfOk};
ghost use Rattle.tool_changelog.specs.Hints.{hint_row, hint_of, or_last, hint_in, last_hint};

use base_values::tool_names::is_log_name;
use base_values::{Change, Chars, Name, Row, RowEvent, Shared, Value};
use itoa::Buffer;
use std::alloc::{AllocError, Global};

const HINT: &str = "cut-over";

/// The hint row of an attempt; attempts count from 1.
#[tactic(auto, unfolding(crate::specs::Hints::hint_row))]
pub fn hint_row(alloc: Global, attempt: u64) -> Result<Row, AllocError>
    ensures { IfOk result (λ row. row ≡ hint_row attempt) }
{
    let number = attempt as i128;
    let hint = Chars::new(alloc, HINT)?;
    let value = Chars::new(alloc, Buffer::new().format(number))?;
    Shared::from_vec(vec![in alloc; Value::Num(number), Value::Text(hint), Value::Text(value)]?)
}

/// The attempt whose hint row this is; none where it is no hint row.
pub fn hint_of(row: &[Value]) -> Option<u128>
    ensures { result ≡ hint_of row.now }
{
    let [Value::Num(number), Value::Text(hint), Value::Text(value)] = row else {
        return None;
    };
    if *number > 0 && hint.as_str() == HINT && value.as_str() == Buffer::new().format(*number) {
        Some(*number as u128)
    } else {
        None
    }
}

fn hint_in(last: u128, change: &Change) -> u128
    ensures { result ≡ hint_in last change.now }
{
    match change {
        Change::Write(row) => hint_of(row.as_slice()).unwrap_or(last),
        _ => last,
    }
}

/// The attempt of the last hint row that was written among the events, else `last`.
pub fn last_hint(table: &Name, last: u128, events: &[RowEvent]) -> u128
    ensures { result ≡ last_hint table.now last events.now }
{
    let mut hint = last;
    for event in events {
        if is_log_name(table.as_str(), event.table.as_str()) {
            hint = hint_in(hint, &event.change);
        }
    }
    hint
}

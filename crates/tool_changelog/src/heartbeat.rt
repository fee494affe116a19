//! Heartbeat rows: the rows of the changelog by which the tool tells how far its reading of the log lags.

ghost use Rattle.std.specs.Prelude.{◌≡◌, IfOk};
ghost use Rattle.tool_changelog.specs.Heartbeats.{heartbeat_row};

use base_values::{Chars, Row, Shared, Value};
use itoa::Buffer;
use std::alloc::{AllocError, Global};

/// The hint of a heartbeat row.
pub const HEARTBEAT_HINT: &str = "heartbeat";

/// The id after which those of the heartbeats stand.
pub const HEARTBEAT_BASE: i128 = 1_000_000;

/// The heartbeat row of a number; heartbeats count from 1.
#[tactic(auto, unfolding(crate::specs::Heartbeats::heartbeat_row))]
pub fn heartbeat_row(alloc: Global, number: u32) -> Result<Row, AllocError>
    ensures { IfOk result (λ row. row ≡ heartbeat_row number) }
{
    let number = i128::from(number);
    let hint = Chars::new(alloc, HEARTBEAT_HINT)?;
    let value = Chars::new(alloc, Buffer::new().format(number))?;
    Shared::from_vec(vec![in alloc;
        Value::Num(HEARTBEAT_BASE + number),
        Value::Text(hint),
        Value::Text(value),
    ]?)
}

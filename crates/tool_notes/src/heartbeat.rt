//! The reader of heartbeat rows.

ghost use Rattle.std.specs.Prelude.{◌≡◌};
ghost use Rattle.tool_notes.specs.Heartbeats.{heartbeat_of};

use base_values::Value;
use itoa::Buffer;
use tool_changelog::{HEARTBEAT_BASE, HEARTBEAT_HINT};

/// How many heartbeats there are.
const MOST: i128 = 1_000;

/// The number whose heartbeat row this is; none where it is no heartbeat row.
pub fn heartbeat_of(row: &[Value]) -> Option<u64>
    ensures { result ≡ heartbeat_of row.now }
{
    let [Value::Num(id), Value::Text(hint), Value::Text(value)] = row else {
        return None;
    };
    if *id <= HEARTBEAT_BASE || *id > HEARTBEAT_BASE + MOST {
        return None;
    }
    let number = *id - HEARTBEAT_BASE;
    if hint.as_str() == HEARTBEAT_HINT && value.as_str() == Buffer::new().format(number) {
        Some(number as u64)
    } else {
        None
    }
}

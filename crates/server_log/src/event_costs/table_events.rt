//! What an event of a table costs. Nothing here takes memory.

ghost use Rattle.std.specs.Prelude.{◌≡◌, length};
ghost use Rattle.std.specs.List.{AllByRecursion};
ghost use Rattle.server_log.specs.Encodings.{encoded, values_of, IsEncodable};
ghost use Rattle.server_log.specs.EventCosts.TableEvents.{IsTableEvent};
ghost use Rattle.server_log.specs.Laws.{IsHeld};

use crate::encoding::cost;
use base_values::{Change, RowEvent, Value};

/// Reads the value's text, where it is one: that it is a `str` says to the prover that it is UTF-8, and so has at most four
/// bytes a character.
fn read_text(value: &Value)
    ensures { IsHeld value.now }
{
    if let Value::Text(text) = value {
        let _text = text.as_str();
    }
}

/// Reads the texts of the row.
fn read_row(row: &[Value])
    ensures { AllByRecursion IsHeld row.now }
{
    for value in row {
        read_text(value);
    }
}

/// Reads the texts of the change.
fn read_change(change: &Change)
    ensures { AllByRecursion IsHeld (values_of change.now) }
{
    match change {
        Change::Write(row) | Change::Delete(row) => read_row(row.as_slice()),
        Change::Update(before, after) => {
            read_row(before.as_slice());
            read_row(after.as_slice());
        }
    }
}

/// How many bytes the event of a table is encoded in.
#[tactic(auto, using(crate::proofs::EventCosts::TableEvents::table_events_encode))]
pub(crate) fn cost_of_table_event(event: &RowEvent) -> u64
    requires { IsTableEvent event.now }
    ensures encodable { IsEncodable event.now }
    ensures cost { result ≡ length (encoded event.now) }
{
    read_change(&event.change);
    cost(event)
}

//! Events that are read from a place of the log on.

ghost use Rattle.std.specs.Prelude.{◌≡◌, ◌≤◌, ℕ, List, drop, count_by, IfOk};
ghost use Rattle.std.specs.List.{list_any};
ghost use Rattle.std.specs.Str.{bytes_eq};
ghost use Rattle.server_model.specs.States.{is_of};
ghost use Rattle.server_model.specs.Listings.{events_read};

use crate::log::event_bytes::EventBytes;
use base_values::{Names, RowEvent, Sequence};
use server_model::Answer;
use std::alloc::{AllocError, Global};

/// Whether the event is of one of these tables.
pub(crate) fn is_of(tables: &Names, event: &RowEvent) -> bool
    ensures { result ≡ is_of tables.now event.now }
{
    tables.as_slice().iter().any(|table| event.table == *table)
}

/// Whether these bytes are the name of one of these tables.
pub(crate) fn is_among(tables: &Names, name: &[u8]) -> bool
    ensures { result ≡ list_any (λ (table : List ℕ). bytes_eq name.now table) tables.now }
{
    tables
        .as_slice()
        .iter()
        .any(|table| name == table.as_str().as_bytes())
}

/// How many events at the position or after it are of these tables.
pub(crate) fn count_from(log: &EventBytes, position: u64, tables: &Names) -> u64
    ensures { result ≡ count_by (is_of tables.now) (drop position log.now.events) }
{
    let mut count = 0;
    for place in position as usize..log.len() {
        if !log.is_of(place, tables) {
            continue;
        }
        count += 1;
    }
    count
}

/// The first events of these tables at the position or after it, and where the next ones are read. Only these are decoded.
pub(crate) fn read_after(
    alloc: Global,
    log: &EventBytes,
    position: u64,
    limit: u32,
    tables: &Names,
) -> Result<Answer, AllocError>
    requires { 1 ≤ limit }
    ensures { IfOk result (λ answer. answer ≡ events_read position limit tables.now log.now.events) }
{
    let mut events = Sequence::new(alloc);
    for place in position as usize..log.len() {
        if !log.is_of(place, tables) {
            continue;
        }
        events.push(log.event(place)?)?;
        if events.len() == limit as usize {
            let next = (place + 1) as u64;
            return Ok(Answer::Events { events, next });
        }
    }
    Ok(Answer::Events {
        events,
        next: log.len() as u64,
    })
}

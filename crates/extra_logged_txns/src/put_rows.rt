//! How many rows events put. Nothing here takes memory.

ghost use Rattle.std.specs.Prelude.{◌≡◌, count_by};
ghost use Rattle.extra_logged_txns.specs.Puts.{is_put};

use base_values::{Change, RowEvent};

/// Whether the event puts a row.
#[tactic(auto, unfolding(crate::specs::Puts::is_put))]
fn is_put(event: &RowEvent) -> bool
    ensures { result ≡ is_put event.now }
{
    match event.change {
        Change::Write(_) | Change::Update(_, _) => true,
        Change::Delete(_) => false,
    }
}

/// How many rows the events put, over all tables.
pub fn puts(events: &[RowEvent]) -> usize
    ensures { result ≡ count_by is_put events.now }
{
    let mut count = 0;
    for event in events {
        if is_put(event) {
            count += 1;
        }
    }
    count
}

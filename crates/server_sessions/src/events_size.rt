//! How many bytes events take in the log.

ghost use Rattle.std.specs.Prelude.{◌≡◌, ◌++◌, [], List, IfOk};
ghost use Rattle.base_values.specs.declared.event.RowEvent.{RowEvent as Event};
ghost use Rattle.server_log.specs.EventCosts.Costs.{bytes_of};

use base_values::{Events, RowEvent, Sequence};
use std::alloc::{AllocError, Global};
use std::marker::Model;
use std::snapshot::Snapshot;

/// How many bytes events take in the log. Whoever wrote them has the events; here they have no bytes, and contracts see them.
pub struct EventsSize {
    events: Snapshot<Events>,
    bytes: u64,
}

// By hand, so that a session's owner proves it as one call.
impl Drop for EventsSize {
    fn drop(self) {
        let EventsSize { events, bytes: _ } = self;
        drop(events);
    }
}

impl Model for EventsSize {
    ghost use Rattle.std.specs.Prelude.{◌≡◌, List};
    ghost use Rattle.base_values.specs.declared.event.RowEvent.{RowEvent};
    ghost use Rattle.server_log.specs.EventCosts.Costs.{bytes_of};

    ghost Value = { List RowEvent };

    ghost view = { λ s. s.events.value };

    ghost invariant = { λ s. s.bytes ≡ bytes_of s.events.value };
}

/// A snapshot has no bytes: that of some events is that of any.
fn of_any(shown: Snapshot<Events>) -> Snapshot<Events>
    ghost events: { List Event }
    ensures { result.value ≡ events }
{
    shown
}

/// These events, without bytes.
fn shown(alloc: Global, events: &[RowEvent]) -> Snapshot<Events>
    ghost all: { List Event }
    requires { all ≡ events.now }
    ensures { result.value ≡ all }
{
    let _ = events;
    of_any(Snapshot::of(&Sequence::new(alloc)))
}

/// Events and others after them, without bytes.
fn joined(alloc: Global, events: &Snapshot<Events>, more: &Snapshot<Events>) -> Snapshot<Events>
    ghost all: { List Event }
    requires { all ≡ events.now.value ++ more.now.value }
    ensures { result.value ≡ all }
{
    let _ = events;
    let _ = more;
    of_any(Snapshot::of(&Sequence::new(alloc)))
}

impl EventsSize {
    /// That of no events.
    pub fn new(alloc: Global) -> EventsSize
        ensures { result ≡ [] }
    {
        EventsSize {
            events: Snapshot::of(&Sequence::new(alloc)),
            bytes: 0,
        }
    }

    /// That of these events, which take so many bytes.
    pub fn of(alloc: Global, events: &[RowEvent], bytes: u64) -> EventsSize
        requires { bytes ≡ bytes_of events.now }
        ensures { result ≡ events.now }
    {
        EventsSize {
            events: shown(alloc, events),
            bytes,
        }
    }

    /// The bytes.
    pub fn bytes(&self) -> u64
        ensures { result ≡ bytes_of self.now }
    {
        self.bytes
    }

    /// That of these events and of others after them; none where no number of 64 bits says how many bytes they take.
    pub fn plus(&self, alloc: Global, more: &EventsSize) -> Result<EventsSize, AllocError>
        ensures { IfOk result (λ all. all ≡ self.now ++ more.now) }
    {
        let bytes = self.bytes.checked_add(more.bytes).ok_or(AllocError)?;
        Ok(EventsSize {
            events: joined(alloc, &self.events, &more.events),
            bytes,
        })
    }
}

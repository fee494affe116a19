//! The bytes of a log's events, and where each event begins.

ghost use Rattle.std.specs.Prelude.{◌≡◌, ◌<◌, ◌≤◌, ◌+◌, ◌∷◌, ◌++◌, [], length, drop, get_or, slice_range, IfOk, OnOk};
ghost use Rattle.base_values.specs.declared.event.RowEvent.{RowEvent as Event};
ghost use Rattle.server_model.specs.States.{is_of};
ghost use Rattle.server_log.specs.Encodings.{encoded, IsEncodable};
ghost use Rattle.server_log.specs.Logs.{all_bytes, BeginWith};

use crate::encoding::put_event;
use crate::log::reading::is_among;
use crate::reader::decode;
use base_values::{Names, RowEvent};
use std::alloc::{AllocError, Global};
use std::marker::Model;

/// Events as bytes. Contracts see the events, and for how many more bytes and events there is room.
#[derive(Drop)]
pub(crate) struct EventBytes {
    bytes: Vec<u8>,
    starts: Vec<usize>,
}

impl Model for EventBytes {
    ghost use Rattle.std.specs.Prelude.{◌-◌, length, vec_len, vec_capacity};
    ghost use Rattle.server_log.specs.Logs.{events_in, AreKept, StoredEvents};

    ghost Value = { StoredEvents };

    ghost view = { λ e. record { events = events_in (length e.starts.items) e.bytes.items; spare = vec_capacity e.bytes - vec_len e.bytes; room = vec_capacity e.starts - vec_len e.starts } };

    ghost invariant = { λ e. AreKept (events_in (length e.starts.items) e.bytes.items) e.bytes.items e.starts.items };
}

/// The name that is in the bytes after its length, of which both come after six bytes.
fn name_in(bytes: &[u8]) -> &[u8]
    requires { get_or bytes.now 5 0 + 6 ≤ length bytes.now }
    ensures { result.now ≡ slice_range bytes.now 6 (get_or bytes.now 5 0 + 6) }
{
    let end = usize::from(bytes[5]) + 6;
    &bytes[6..end]
}

/// The bytes from a place on.
fn rest_from(bytes: &[u8], start: usize) -> &[u8]
    requires { start ≤ length bytes.now }
    ensures { result.now ≡ drop start bytes.now }
{
    &bytes[start..]
}

impl EventBytes {
    /// No events.
    #[tactic(auto, using(crate::proofs::KeptEvents::nothing))]
    pub(crate) fn new(alloc: Global) -> EventBytes
        ensures { result.events ≡ [] }
    {
        EventBytes {
            bytes: Vec::new(alloc),
            starts: Vec::new(alloc),
        }
    }

    /// Makes room for this many more bytes and events.
    pub(crate) fn reserve(&mut self, bytes: usize, events: usize) -> Result<(), AllocError>
        ensures events { self.new.events ≡ self.old.events }
        ensures bytes { OnOk result (bytes ≤ self.new.spare) }
        ensures room { OnOk result (events ≤ self.new.room) }
        ensures more_bytes { self.old.spare ≤ self.new.spare }
        ensures more_room { self.old.room ≤ self.new.room }
    {
        self.bytes.reserve(bytes)?;
        self.starts.reserve(events)
    }

    /// Adds an event after all others.
    #[tactic(auto, using(crate::proofs::KeptEvents::additions))]
    pub(crate) fn add(&mut self, event: &RowEvent)
        requires encodable { IsEncodable event.now }
        requires bytes { length (encoded event.now) ≤ self.old.spare }
        requires room { 1 ≤ self.old.room }
        ensures events { self.new.events ≡ self.old.events ++ event.now ∷ [] }
        ensures bytes { self.old.spare ≤ self.new.spare + length (encoded event.now) }
        ensures room { self.old.room ≡ self.new.room + 1 }
    {
        self.starts.push_reserved(self.bytes.len());
        put_event(&mut self.bytes, event);
    }

    /// How many events there are.
    pub(crate) fn len(&self) -> usize
        ensures { result ≡ length self.now.events }
    {
        self.starts.len()
    }

    /// The bytes of all events.
    pub(crate) fn as_slice(&self) -> &[u8]
        ensures { result.now ≡ all_bytes self.now.events }
    {
        self.bytes.as_slice()
    }

    /// The bytes from an event on.
    fn from_place(&self, place: usize) -> &[u8]
        requires { place < length self.now.events }
        ensures { (event : Event) → event ≡ get_or self.now.events place event → BeginWith event result.now }
    {
        let start = self.starts[place];
        rest_from(self.bytes.as_slice(), start)
    }

    /// Whether the event at the place is of one of these tables. It is not decoded for that.
    pub(crate) fn is_of(&self, place: usize, tables: &Names) -> bool
        requires { place < length self.now.events }
        ensures { (event : Event) → event ≡ get_or self.now.events place event → result ≡ is_of tables.now event }
    {
        is_among(tables, name_in(self.from_place(place)))
    }

    /// The event at the place.
    pub(crate) fn event(&self, place: usize) -> Result<RowEvent, AllocError>
        requires { place < length self.now.events }
        ensures { IfOk result (λ event. event ≡ get_or self.now.events place event) }
    {
        match decode(*self.bytes.allocator(), self.from_place(place)) {
            Ok((event, _)) => Ok(event),
            // It is memory that is missing, since the bytes are those of an event.
            Err(_) => Err(AllocError),
        }
    }
}

//! The log as a whole.

ghost use Rattle.std.specs.Prelude.{◌≡◌, ◌≤◌, ◌<◌, ◌+◌, ◌-◌, [], ◌∷◌, ◌++◌, length, drop, max, count_by, get_or, slice_range, IfOk, OnOk, OnErr};
ghost use Rattle.std.specs.List.{AllByRecursion};
ghost use Rattle.server_model.specs.States.{is_of};
ghost use Rattle.server_model.specs.Listings.{events_read};
ghost use Rattle.server_log.specs.Encodings.{encoded, IsEncodable};
ghost use Rattle.server_log.specs.EventCosts.Costs.{bytes_of};
ghost use Rattle.server_log.specs.Logs.{segments_of};

use crate::encoding::cost;
use crate::log::counts::Counts;
use crate::log::event_bytes::EventBytes;
use crate::log::reading::{count_from, read_after};
use crate::log::segments::Segments;
use base_values::{Names, RowEvent};
use server_model::Answer;
use std::alloc::{AllocError, Global};
use std::cmp::max;
use std::marker::Model;

/// For how many bytes room is made at first, at least: most transactions have an event or two, of some tens of bytes each.
const FIRST_ROOM: usize = 1024;

/// The events of the committed transactions, as bytes in segments. How many of them are unread is known at once of the tables
/// that it watches. Contracts see besides for how many more bytes it has room.
#[derive(Drop)]
pub struct Log {
    alloc: Global,
    events: EventBytes,
    segments: Segments,
    counts: Counts,
    spare: u64,
}

impl Model for Log {
    ghost use Rattle.server_log.specs.Logs.{IsLog, StoredLog};

    ghost Value = { StoredLog };

    ghost view = { λ log. record { events = log.events.events; spare = log.spare } };

    ghost invariant = { λ log. IsLog log.events log.segments log.counts log.spare };
}

/// The bytes from a place up to another.
fn part(bytes: &[u8], start: usize, end: usize) -> &[u8]
    requires order { start ≤ end }
    requires within { end ≤ length bytes.now }
    ensures { result.now ≡ slice_range bytes.now start end }
{
    &bytes[start..end]
}

impl Log {
    /// The log before the first commit, which watches these tables.
    #[tactic(auto, using(crate::proofs::Segments::steps))]
    pub fn new(alloc: Global, watched: Names) -> Log
        ensures { result.events ≡ [] }
    {
        Log {
            alloc,
            events: EventBytes::new(alloc),
            segments: Segments::new(alloc),
            counts: Counts::new(alloc, watched),
            spare: 0,
        }
    }

    /// How many events it has.
    pub fn end(&self) -> u64
        ensures { result ≡ length self.now.events }
    {
        self.events.len() as u64
    }

    /// For how many more bytes it has room.
    pub fn spare(&self) -> u64
        ensures { result ≡ self.now.spare }
    {
        self.spare
    }

    /// Makes room for this many bytes of events at least. (An event takes 8 bytes at least.)
    pub fn reserve(&mut self, bytes: u64) -> Result<(), AllocError>
        ensures events { self.new.events ≡ self.old.events }
        ensures ok { OnOk result (self.new.spare ≡ max self.old.spare bytes) }
        ensures err { OnErr result (self.new.spare ≡ self.old.spare) }
    {
        if bytes <= self.spare {
            return Ok(());
        }
        let room = if self.events.len() == 0 {
            max(bytes as usize, FIRST_ROOM)
        } else {
            bytes as usize
        };
        let events = room / 8 + 1;
        self.events.reserve(room, events)?;
        self.segments.reserve(events)?;
        self.counts.reserve(events)?;
        self.spare = bytes;
        Ok(())
    }

    /// Gives back room that was made.
    pub fn release(&mut self, bytes: u64)
        requires { bytes ≤ self.old.spare }
        ensures events { self.new.events ≡ self.old.events }
        ensures spare { self.new.spare ≡ self.old.spare - bytes }
    {
        self.spare -= bytes;
    }

    /// Adds an event after all others.
    #[tactic(auto, using(crate::proofs::KeptEvents::lengths))]
    fn add(&mut self, event: &RowEvent)
        requires encodable { IsEncodable event.now }
        requires room { length (encoded event.now) ≤ self.old.spare }
        ensures events { self.new.events ≡ self.old.events ++ event.now ∷ [] }
        ensures spare { self.new.spare + length (encoded event.now) ≡ self.old.spare }
    {
        let end = self.events.as_slice().len();
        let size = cost(event);
        self.events.add(event);
        self.segments.add(end, size as usize);
        self.counts.add(event);
        self.spare -= size;
    }

    /// Adds the events of a committed transaction after all others. It takes no memory.
    pub fn append(&mut self, events: &[RowEvent])
        requires encodable { AllByRecursion IsEncodable events.now }
        requires room { bytes_of events.now ≤ self.old.spare }
        ensures events { self.new.events ≡ self.old.events ++ events.now }
        ensures spare { self.new.spare + bytes_of events.now ≡ self.old.spare }
    {
        for event in events {
            self.add(event);
        }
    }

    /// The first events of these tables at the position or after it, and where the next ones are read.
    pub fn after(&self, position: u64, limit: u32, tables: &Names) -> Result<Answer, AllocError>
        requires { 1 ≤ limit }
        ensures { IfOk result (λ answer. answer ≡ events_read position limit tables.now self.now.events) }
    {
        read_after(self.alloc, &self.events, position, limit, tables)
    }

    /// How many events of these tables are at the position or after it. It takes no memory, and where the log watches these
    /// tables, it looks at none of the events.
    pub fn unread(&self, position: u64, tables: &Names) -> u64
        ensures { result ≡ count_by (is_of tables.now) (drop position self.now.events) }
    {
        if self.counts.watches(tables) {
            return self.counts.following(position as usize);
        }
        count_from(&self.events, position, tables)
    }

    /// How many segments it has.
    #[tactic(auto, using(crate::proofs::Segments::steps))]
    pub fn segments(&self) -> u64
        ensures { result ≡ length (segments_of self.now.events) }
    {
        self.segments.len() as u64
    }

    /// A segment's bytes.
    pub fn segment(&self, n: u64) -> &[u8]
        requires { n < length (segments_of self.now.events) }
        ensures { result.now ≡ get_or (segments_of self.now.events) n [] }
    {
        let bytes = self.events.as_slice();
        let (start, end) = self.segments.range(n as usize, bytes.len());
        part(bytes, start, end)
    }
}

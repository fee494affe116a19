//! What is kept of one live session, and how each call changes it.

ghost use Rattle.std.specs.Prelude.{◌≡◌, ◌==◌, OnOk, OnErr};
ghost use Rattle.server_log.specs.EventCosts.Costs.{bytes_of};
ghost use Rattle.server_sessions.specs.LiveSessions.KeptSessions.{kept_at_rest, kept_counting, kept_holding, kept_locking, kept_unlocking, new_kept};

use crate::events_size::EventsSize;
use crate::grant::{Grant, keep_exclusive, keep_shared};
use std::alloc::{AllocError, Global};
use std::marker::Model;

/// A live session, with a grant in place of each name that it holds, and without row locks, which the tables of all locks alone
/// have. Of what it wrote it has the size: the storage has the events.
pub struct LiveSession {
    number: u32,
    is_tool: bool,
    in_transaction: bool,
    writes: EventsSize,
    granted: Vec<Grant>,
    polls: u32,
}

// By hand, so that the list's owner proves it as one call.
impl Drop for LiveSession {
    fn drop(self) {
        let LiveSession {
            number: _,
            is_tool: _,
            in_transaction: _,
            writes,
            granted,
            polls: _,
        } = self;
        drop(writes);
        drop(granted);
    }
}

impl Model for LiveSession {
    ghost use Rattle.server_sessions.specs.LiveSessions.KeptSessions.{KeptSession};

    ghost Value = { KeptSession };

    ghost view = { λ s. record { number = s.number; is_tool = s.is_tool; in_transaction = s.in_transaction; writes = s.writes; granted = s.granted.items; polls = s.polls } };
}

impl LiveSession {
    /// A session that has just connected.
    pub fn new(alloc: Global, number: u32, is_tool: bool) -> LiveSession
        ensures { result ≡ new_kept number is_tool }
    {
        LiveSession {
            number,
            is_tool,
            in_transaction: false,
            writes: EventsSize::new(alloc),
            granted: Vec::new(alloc),
            polls: 0,
        }
    }

    /// Whether it has this number.
    pub fn has_number(&self, number: u32) -> bool
        ensures { result ≡ (self.now.number == number) }
    {
        self.number == number
    }

    /// Whether it is the tool's.
    pub fn is_tool(&self) -> bool
        ensures { result ≡ self.now.is_tool }
    {
        self.is_tool
    }

    /// Whether it is in a transaction.
    pub fn is_in_transaction(&self) -> bool
        ensures { result ≡ self.now.in_transaction }
    {
        self.in_transaction
    }

    /// How many bytes what its transaction wrote takes in the log.
    pub fn bytes_written(&self) -> u64
        ensures { result ≡ bytes_of self.now.writes }
    {
        self.writes.bytes()
    }

    /// How often its waiting request was polled.
    pub fn polls(&self) -> u32
        ensures { result ≡ self.now.polls }
    {
        self.polls
    }

    /// It is in a transaction, was granted these too, and wrote these events; all is as before where there is no memory.
    pub fn grow(
        &mut self,
        alloc: Global,
        grants: Vec<Grant>,
        events: &EventsSize,
    ) -> Result<(), AllocError>
        ensures ok { OnOk result (self.new ≡ kept_holding grants.items events.now self.old) }
        ensures err { OnErr result (self.new ≡ self.old) }
    {
        let writes = self.writes.plus(alloc, events)?;
        let mut grants = grants;
        self.granted.append(&mut grants)?;
        self.writes = writes;
        self.in_transaction = true;
        Ok(())
    }

    /// It is outside a transaction, and wrote nothing.
    pub fn rest(&mut self, alloc: Global)
        ensures { self.new ≡ kept_at_rest self.old }
    {
        keep_exclusive(&mut self.granted);
        self.in_transaction = false;
        self.writes = EventsSize::new(alloc);
    }

    /// It was granted these too; all is as before where there is no memory.
    pub fn lock_tables(&mut self, grants: Vec<Grant>) -> Result<(), AllocError>
        ensures ok { OnOk result (self.new ≡ kept_locking grants.items self.old) }
        ensures err { OnErr result (self.new ≡ self.old) }
    {
        let mut grants = grants;
        self.granted.append(&mut grants)
    }

    /// It holds no name exclusively from now on.
    pub fn unlock_tables(&mut self)
        ensures { self.new ≡ kept_unlocking self.old }
    {
        keep_shared(&mut self.granted);
    }

    /// Its request was polled so often.
    pub fn count_polls(&mut self, polls: u32)
        ensures { self.new ≡ kept_counting polls self.old }
    {
        self.polls = polls;
    }
}

//! The sessions and the requests that wait, with the tables of the locks that they hold and wait for.

ghost use Rattle.std.specs.Prelude.{◌≡◌, ◌==◌, ◌+◌, ◌<◌, ◌++◌, [], ◌∷◌, false, not, filter, is_some, IfOk, OnOk, OnErr};
ghost use Rattle.server_locks.specs.RowLocks.Grants.{blocker_of_set};
ghost use Rattle.server_locks.specs.RowLocks.LockTable.{granted};
ghost use Rattle.server_locks.specs.MetadataLocks.Grants.{blocker_of_names};
ghost use Rattle.server_locks.specs.MetadataLocks.LockTable as name_table;
ghost use Rattle.server_log.specs.EventCosts.Costs.{bytes_of};
ghost use Rattle.server_model.specs.States.{holds_tables, is_exclusive, is_in_transaction, is_of_tool, locks_held, names_held, names_in, polls_of, waiters, new_session, session_of, with_session, writes_of};
ghost use Rattle.server_model.specs.Effects.{is_outside};
ghost use Rattle.server_model.specs.PlainServer.{at_rest, counting, holding, locking, unlocking};

use crate::session_locks::{is_exclusive, is_outside, names_blocker, names_in};
use crate::{
    EventsSize, LiveSession, begin_wait, bytes_written, connect, count_polls, disconnect, end_wait,
    hold, is_in_transaction, is_live, is_of_tool, lock_tables, polls_of, rest, unlock_tables,
};
use base_values::Names;
use server_locks::metadata_locks::MetaLocks;
use server_locks::row_locks::{Lock, LockSet, RowLocks};
use server_model::{Need, Request, Waiting};
use std::alloc::{AllocError, Global};
use std::marker::Model;

/// The live sessions, the greatest number that one was given, and the requests that wait. The row locks of all sessions stand in
/// one table and their names in another, and nowhere else: contracts see in a session's record those that it has of them. Who
/// refuses a row lock or a name, and what a session has locked, is asked of the tables. That of names has the requests for
/// exclusive names that wait, too.
pub struct SessionList {
    made: u32,
    sessions: Vec<LiveSession>,
    waiting: Vec<Waiting>,
    locks: RowLocks,
    names: MetaLocks,
}

// By hand, so that the sessions' owner drops it as one call.
impl Drop for SessionList {
    fn drop(self) {
        let SessionList {
            made: _,
            sessions,
            waiting,
            locks,
            names,
        } = self;
        drop(sessions);
        drop(waiting);
        drop(locks);
        drop(names);
    }
}

impl Model for SessionList {
    ghost use Rattle.server_sessions.specs.LiveSessions.SessionLists.{NumberedSessions, AreInTables};
    ghost use Rattle.server_sessions.specs.LiveSessions.KeptSessions.{records_of};

    ghost Value = { NumberedSessions };

    ghost view = { λ l. record { made = l.made; sessions = records_of l.locks.held l.names.held l.sessions.items; waiting = l.waiting.items } };

    ghost invariant = { λ l. AreInTables l.made l.sessions.items l.waiting.items l.locks.held l.names };
}

/// Gives the session these row locks, and these names shared; none where there is no memory.
fn grant(
    locks: &mut RowLocks,
    names: &mut MetaLocks,
    number: u32,
    set: &LockSet,
    shared: &Names,
) -> Result<(), AllocError>
    ensures rows { OnOk result (locks.new ≡ granted locks.old number set.now) }
    ensures names { OnOk result (names.new ≡ name_table.granted names.old number false shared.now) }
    ensures no_rows { OnErr result (locks.new.held ≡ locks.old.held) }
    ensures no_names { OnErr result (names.new ≡ names.old) }
{
    locks.grant(number, set)?;
    match names.grant(number, shared, false) {
        Ok(()) => Ok(()),
        Err(error) => {
            locks.undo(number);
            Err(error)
        }
    }
}

impl SessionList {
    /// No session.
    pub fn new(alloc: Global) -> SessionList
        ensures { result ≡ record { made = 0; sessions = []; waiting = [] } }
    {
        SessionList {
            made: 0,
            sessions: Vec::new(alloc),
            waiting: Vec::new(alloc),
            locks: RowLocks::new(alloc),
            names: MetaLocks::new(alloc),
        }
    }

    /// Whether the session is live.
    pub fn is_live(&self, number: u32) -> bool
        ensures { result ≡ is_some (session_of number self.now.sessions) }
    {
        is_live(self.sessions.as_slice(), number)
    }

    /// Whether the session is in a transaction.
    pub fn is_in_transaction(&self, number: u32) -> bool
        ensures { result ≡ is_in_transaction (session_of number self.now.sessions) }
    {
        is_in_transaction(self.sessions.as_slice(), number)
    }

    /// Whether the session holds LOCK TABLES.
    pub fn holds_tables(&self, number: u32) -> bool
        ensures { result ≡ holds_tables (session_of number self.now.sessions) }
    {
        self.names.holds_any(number, true)
    }

    /// Whether the session is the tool's.
    pub fn is_of_tool(&self, number: u32) -> bool
        ensures { result ≡ is_of_tool (session_of number self.now.sessions) }
    {
        is_of_tool(self.sessions.as_slice(), number)
    }

    /// How often the session's waiting request was polled.
    pub fn polls_of(&self, number: u32) -> u32
        ensures { result ≡ polls_of (session_of number self.now.sessions) }
    {
        polls_of(self.sessions.as_slice(), number)
    }

    /// How many bytes what the session's transaction wrote takes in the log.
    pub fn bytes_written(&self, number: u32) -> u64
        ensures { result ≡ bytes_of (writes_of (session_of number self.now.sessions)) }
    {
        bytes_written(self.sessions.as_slice(), number)
    }

    /// Whether the session holds LOCK TABLES and the request names a table that it hasn't locked.
    pub fn is_outside(&self, number: u32, request: &Request) -> bool
        ensures { result ≡ is_outside (session_of number self.now.sessions) request.now }
    {
        is_outside(&self.names, number, request)
    }

    /// The requests that wait, in the order in which they came.
    pub fn waiting(&self) -> &[Waiting]
        ensures value { result.now ≡ self.now.waiting }
    {
        self.waiting.as_slice()
    }

    /// The least session that refuses one of the names that the request mentions.
    pub fn names_blocker(&self, number: u32, request: &Request) -> Option<u32>
        ensures { result ≡ blocker_of_names (names_held self.now.sessions) (waiters self.now.waiting) number (is_exclusive request.now) (names_in request.now) }
    {
        names_blocker(&self.names, number, request)
    }

    /// The least session that refuses one of the row locks.
    pub fn blocker(&self, number: u32, locks: &[Lock]) -> Option<u32>
        ensures { result ≡ blocker_of_set (locks_held self.now.sessions) number locks.now }
    {
        self.locks.blocker(number, locks)
    }

    /// One session more, whose number is given.
    pub fn connect(&mut self, alloc: Global, is_tool: bool) -> Result<u32, AllocError>
        requires { self.old.made < u32.MAX }
        ensures number { IfOk result (λ number. number ≡ self.old.made + 1) }
        ensures ok { OnOk result (self.new ≡ record self.old { made = self.old.made + 1; sessions = self.old.sessions ++ new_session (self.old.made + 1) is_tool ∷ [] }) }
        ensures err { OnErr result (self.new ≡ self.old) }
    {
        // Numbers rise, and need not be next to one another in a journal: a session that was made for a turn without memory
        // has used one up.
        let number = self.made + 1;
        connect(alloc, &mut self.sessions, number, is_tool)?;
        self.made = number;
        Ok(number)
    }

    /// The greatest number that a session was given.
    pub fn made(&self) -> u32
        ensures { result ≡ self.now.made }
    {
        self.made
    }

    /// The number of a session that is lost before it asks anything.
    pub fn pass(&mut self) -> u32
        requires { self.old.made < u32.MAX }
        ensures number { result ≡ self.old.made + 1 }
        ensures passed { self.new ≡ record self.old { made = self.old.made + 1 } }
    {
        self.made += 1;
        self.made
    }

    /// The session is gone, with all that it holds.
    pub fn disconnect(&mut self, number: u32)
        ensures { self.new ≡ record self.old { sessions = filter (λ session. not (session.number == number)) self.old.sessions } }
    {
        disconnect(&mut self.sessions, number);
        self.locks.free(number);
        self.names.let_go(number, true);
        self.names.let_go(number, false);
    }

    /// The session's transaction goes on with what was granted and these events; all is as before where there is no memory.
    pub fn hold(
        &mut self,
        alloc: Global,
        number: u32,
        need: Need,
        events: &EventsSize,
    ) -> Result<(), AllocError>
        ensures ok { OnOk result (self.new ≡ record self.old { sessions = with_session number (holding need events.now) self.old.sessions }) }
        ensures err { OnErr result (self.new ≡ self.old) }
    {
        if !is_live(self.sessions.as_slice(), number) {
            return Ok(());
        }
        let Need {
            exclusive: _,
            names,
            locks,
        } = need;
        grant(&mut self.locks, &mut self.names, number, &locks, &names)?;
        match hold(
            alloc,
            &mut self.sessions,
            &self.names,
            number,
            &names,
            events,
        ) {
            Ok(()) => Ok(()),
            Err(error) => {
                self.locks.undo(number);
                self.names.undo(number);
                Err(error)
            }
        }
    }

    /// The session's transaction is over: its row locks and shared names are free.
    pub fn rest(&mut self, alloc: Global, number: u32)
        ensures { self.new ≡ record self.old { sessions = with_session number at_rest self.old.sessions } }
    {
        self.locks.free(number);
        self.names.let_go(number, false);
        rest(alloc, &mut self.sessions, number);
    }

    /// The session holds these names exclusively too; all is as before where there is no memory.
    pub fn lock_tables(
        &mut self,
        alloc: Global,
        number: u32,
        names: &Names,
    ) -> Result<(), AllocError>
        ensures ok { OnOk result (self.new ≡ record self.old { sessions = with_session number (locking names.now) self.old.sessions }) }
        ensures err { OnErr result (self.new ≡ self.old) }
    {
        if !is_live(self.sessions.as_slice(), number) {
            return Ok(());
        }
        self.names.grant(number, names, true)?;
        match lock_tables(alloc, &mut self.sessions, &self.names, number, names) {
            Ok(()) => Ok(()),
            Err(error) => {
                self.names.undo(number);
                Err(error)
            }
        }
    }

    /// The session holds no name exclusively from now on.
    pub fn unlock_tables(&mut self, number: u32)
        ensures { self.new ≡ record self.old { sessions = with_session number unlocking self.old.sessions } }
    {
        unlock_tables(&mut self.sessions, number);
        self.names.let_go(number, true);
    }

    /// The session's request waits after all others; all is as before where there is no memory.
    pub fn begin_wait(
        &mut self,
        alloc: Global,
        number: u32,
        request: &Request,
    ) -> Result<(), AllocError>
        ensures ok { OnOk result (self.new ≡ record self.old { waiting = self.old.waiting ++ record { session = number; request = request.now } ∷ [] }) }
        ensures err { OnErr result (self.new ≡ self.old) }
    {
        if !is_exclusive(request) {
            return begin_wait(&mut self.waiting, number, request);
        }
        let names = names_in(alloc, request)?;
        self.names.line_up(number, names)?;
        match begin_wait(&mut self.waiting, number, request) {
            Ok(()) => Ok(()),
            Err(error) => {
                self.names.undo(number);
                Err(error)
            }
        }
    }

    /// The session's request waits no more.
    pub fn end_wait(&mut self, number: u32)
        ensures { self.new ≡ record self.old { waiting = filter (λ one. not (one.session == number)) self.old.waiting } }
    {
        end_wait(&mut self.waiting, number);
        self.names.end_waits(number);
    }

    /// The session's request was polled so often.
    pub fn count_polls(&mut self, number: u32, polls: u32)
        ensures { self.new ≡ record self.old { sessions = with_session number (counting polls) self.old.sessions } }
    {
        count_polls(&mut self.sessions, number, polls);
    }
}

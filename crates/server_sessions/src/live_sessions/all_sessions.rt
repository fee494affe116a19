//! Sessions, requests that wait, and the log.

ghost use Rattle.std.specs.Prelude.{◌≡◌, ◌<◌, ◌≤◌, ◌+◌, ◌++◌, [], ◌∷◌, length, drop, option_copied, IfOk, OnOk, OnErr};
ghost use Rattle.std.specs.List.{AllByRecursion};
ghost use Rattle.server_model.specs.States.{counter_of, counters_renamed, counters_without, next_of, opened, connected, passed, session_of, with_session, writes_of, is_live, is_in_transaction, is_of_tool, is_waiting, holds_tables, waiting_of, unread, is_exclusive, names_in};
ghost use Rattle.server_model.specs.Blockers.{blocker};
ghost use Rattle.server_model.specs.Listings.{events_read, waits_shown};
ghost use Rattle.server_model.specs.Effects.{is_outside};
ghost use Rattle.server_model.specs.PlainServer.{counting, forgets, goes_on, limit_if, locking, loses, polled_over, is_over, recounted, unlocking, without_waiting};
ghost use Rattle.server_log.specs.EventCosts.TableEvents.{IsTableEvent};
ghost use Rattle.server_sessions.specs.LiveSessions.CounterMoves.{drawn_in_move, moved};
ghost use Rattle.server_sessions.specs.LiveSessions.Rooms.{logs};

use crate::live_sessions::counter_moves::{CounterMove, after_drawn, after_given, drawn_by};
use crate::live_sessions::room::make_room;
use crate::live_sessions::session_list::SessionList;
use crate::session_locks::{is_exclusive, names_in, waits_shown};
use crate::{
    EventsSize, counters_renamed, counters_with, counters_without, is_waiting, next_of, raise,
    waiting_of,
};
use base_values::gho_schema::Schema;
use base_values::{Name, Names, RowEvent};
use server_locks::least_session::least;
use server_locks::row_locks::{Lock, LockSet};
use server_log::Log;
use server_model::{Answer, Counter, Limits, Need, Request, ShownWaiters, Waiting};
use std::alloc::{AllocError, Global};
use std::marker::Model;
use table_store::Pairs;

/// The sessions, the requests that wait and the log of a server. Contracts see the plain server's state, but for its
/// tables. Where there is no memory for a call, all is as before.
pub struct Sessions {
    alloc: Global,
    limits: Limits,
    log: Log,
    sessions: SessionList,
    counters: Vec<Counter>,
}

// By hand: crates above then take it as one call, and don't prove the drop of each part again.
impl Drop for Sessions {
    fn drop(self) {
        let Sessions {
            alloc: _,
            limits: _,
            log,
            sessions,
            counters,
        } = self;
        drop(log);
        drop(sessions);
        drop(counters);
    }
}

impl Model for Sessions {
    ghost use Rattle.std.specs.Prelude.{[]};
    ghost use Rattle.server_model.specs.States.{State};
    ghost use Rattle.server_sessions.specs.LiveSessions.Rooms.{IsReady};

    ghost Value = { State };

    ghost view = { λ d. record { limits = d.limits; made = d.sessions.made; tables = []; log = d.log.events; waiting = d.sessions.waiting; sessions = d.sessions.sessions; counters = d.counters.items } };

    ghost invariant = { λ d. IsReady d.limits d.sessions.sessions d.log.spare };
}

/// What the request needs, with these row locks.
fn need_of(alloc: Global, request: &Request, locks: LockSet) -> Result<Need, AllocError>
    ensures { IfOk result (λ need. need ≡ record { exclusive = is_exclusive request.now; names = names_in request.now; locks = locks }) }
{
    Ok(Need {
        exclusive: is_exclusive(request),
        names: names_in(alloc, request)?,
        locks,
    })
}

impl Sessions {
    /// No session, as at the server's start, over tables with these counters. Its log watches these tables.
    pub fn new(alloc: Global, limits: Limits, watched: Names, counters: Vec<Counter>) -> Sessions
        requires clients { 1 ≤ limits.client_wait }
        requires tools { 1 ≤ limits.tool_wait }
        ensures { result ≡ recounted counters.items (opened limits []) }
    {
        Sessions {
            alloc,
            limits,
            log: Log::new(alloc, watched),
            sessions: SessionList::new(alloc),
            counters,
        }
    }

    /// The allocator that it was made with.
    pub fn allocator(&self) -> Global {
        self.alloc
    }

    /// Makes a session, of the tool's or of a client's, and gives its number.
    pub fn connect(&mut self, is_tool: bool) -> Result<u32, AllocError>
        requires { self.old.made < u32.MAX }
        ensures number { IfOk result (λ number. number ≡ self.old.made + 1) }
        ensures ok { OnOk result (self.new ≡ connected (self.old.made + 1) is_tool self.old) }
        ensures err { OnErr result (self.new ≡ self.old) }
    {
        self.sessions.connect(self.alloc, is_tool)
    }

    /// Gives the number of a session that is lost before it asks anything.
    pub fn pass(&mut self) -> u32
        requires { self.old.made < u32.MAX }
        ensures number { result ≡ self.old.made + 1 }
        ensures passed { self.new ≡ passed self.old }
    {
        self.sessions.pass()
    }

    /// The greatest number that a session was given.
    pub fn made(&self) -> u32
        ensures { result ≡ self.now.made }
    {
        self.sessions.made()
    }

    /// The session is gone, with all that it holds, and with its request that waits.
    #[tactic(auto, unfolding(server_model::specs::PlainServer::loses))]
    pub fn lose(&mut self, session: u32)
        ensures { self.new ≡ loses session self.old }
    {
        self.sessions.end_wait(session);
        self.forget(session);
        self.sessions.disconnect(session);
    }

    /// The session's transaction goes on, or begins, with the names that the request mentions, with these row locks and
    /// with these events.
    pub fn go_on(
        &mut self,
        session: u32,
        request: &Request,
        locks: LockSet,
        events: &[RowEvent],
    ) -> Result<(), AllocError>
        requires { AllByRecursion IsTableEvent events.now }
        ensures ok { OnOk result (self.new ≡ goes_on session (record { exclusive = is_exclusive request.now; names = names_in request.now; locks = locks }) events.now self.old) }
        ensures err { OnErr result (self.new ≡ self.old) }
    {
        let need = need_of(self.alloc, request, locks)?;
        let room = make_room(&mut self.log, events)?;
        let size = EventsSize::of(self.alloc, events, room);
        match self.sessions.hold(self.alloc, session, need, &size) {
            Ok(()) => Ok(()),
            Err(error) => {
                self.log.release(room);
                Err(error)
            }
        }
    }

    /// What the session wrote is logged, and its transaction is over.
    pub fn commit(&mut self, session: u32, writes: &[RowEvent])
        requires { writes.now ≡ writes_of (session_of session self.old.sessions) }
        ensures { self.new ≡ logs session [] self.old }
    {
        self.log.append(writes);
        self.sessions.rest(self.alloc, session);
    }

    /// What the session wrote is logged with these events, and its transaction is over.
    pub fn commit_with(
        &mut self,
        session: u32,
        writes: &[RowEvent],
        events: &[RowEvent],
    ) -> Result<(), AllocError>
        requires writes { writes.now ≡ writes_of (session_of session self.old.sessions) }
        requires events { AllByRecursion IsTableEvent events.now }
        ensures ok { OnOk result (self.new ≡ logs session events.now self.old) }
        ensures err { OnErr result (self.new ≡ self.old) }
    {
        let _ = make_room(&mut self.log, events)?;
        self.log.append(writes);
        self.log.append(events);
        self.sessions.rest(self.alloc, session);
        Ok(())
    }

    /// The session's transaction is over, and what it wrote is forgotten.
    pub fn forget(&mut self, session: u32)
        ensures { self.new ≡ forgets session self.old }
    {
        let bytes = self.sessions.bytes_written(session);
        self.log.release(bytes);
        self.sessions.rest(self.alloc, session);
    }

    /// The session holds these names exclusively too (LOCK TABLES).
    pub fn lock(&mut self, session: u32, names: &Names) -> Result<(), AllocError>
        ensures ok { OnOk result (self.new ≡ record self.old { sessions = with_session session (locking names.now) self.old.sessions }) }
        ensures err { OnErr result (self.new ≡ self.old) }
    {
        self.sessions.lock_tables(self.alloc, session, names)
    }

    /// The session holds no name exclusively from now on (UNLOCK TABLES).
    pub fn unlock(&mut self, session: u32)
        ensures { self.new ≡ record self.old { sessions = with_session session unlocking self.old.sessions } }
    {
        self.sessions.unlock_tables(session);
    }

    /// The session's request waits after all others, and wasn't polled yet.
    pub fn wait(&mut self, session: u32, request: &Request) -> Result<(), AllocError>
        ensures ok { OnOk result (self.new ≡ record self.old { waiting = self.old.waiting ++ record { session = session; request = request.now } ∷ []; sessions = with_session session (counting 0) self.old.sessions }) }
        ensures err { OnErr result (self.new ≡ self.old) }
    {
        self.sessions.begin_wait(self.alloc, session, request)?;
        self.sessions.count_polls(session, 0);
        Ok(())
    }

    /// The session's request waits no more.
    pub fn end_wait(&mut self, session: u32)
        ensures { self.new ≡ without_waiting session self.old }
    {
        self.sessions.end_wait(session);
    }

    /// How often the session may be polled.
    fn limit(&self, session: u32) -> u32
        ensures { result ≡ limit_if (is_of_tool (session_of session self.now.sessions)) self.now.limits }
    {
        if self.sessions.is_of_tool(session) {
            self.limits.tool_wait
        } else {
            self.limits.client_wait
        }
    }

    /// The session's request was polled, and the other session still blocks it: it waits on, or its wait times out.
    pub fn stay_blocked(&mut self, session: u32, by: u32) -> Answer
        ensures answer { result ≡ (polled_over (is_over self.old session) by self.old session).answer }
        ensures after { self.new ≡ (polled_over (is_over self.old session) by self.old session).after }
    {
        let limit = self.limit(session);
        let polls = self.sessions.polls_of(session);
        let waited = polls + 1;
        if waited == limit {
            self.sessions.end_wait(session);
            self.forget(session);
            Answer::TimedOut { waited }
        } else {
            self.sessions.count_polls(session, waited);
            Answer::Waits { by }
        }
    }

    /// Whether the session is live.
    pub fn is_live(&self, session: u32) -> bool
        ensures { result ≡ is_live self.now session }
    {
        self.sessions.is_live(session)
    }

    /// Whether the session's request waits.
    pub fn is_waiting(&self, session: u32) -> bool
        ensures { result ≡ is_waiting self.now session }
    {
        is_waiting(self.sessions.waiting(), session)
    }

    /// Whether the session is in a transaction.
    pub fn is_in_transaction(&self, session: u32) -> bool
        ensures { result ≡ is_in_transaction (session_of session self.now.sessions) }
    {
        self.sessions.is_in_transaction(session)
    }

    /// Whether the session holds LOCK TABLES.
    pub fn holds_tables(&self, session: u32) -> bool
        ensures { result ≡ holds_tables (session_of session self.now.sessions) }
    {
        self.sessions.holds_tables(session)
    }

    /// Whether the session is the tool's.
    pub fn is_of_tool(&self, session: u32) -> bool
        ensures { result ≡ is_of_tool (session_of session self.now.sessions) }
    {
        self.sessions.is_of_tool(session)
    }

    /// The number that is drawn next from the table of this name; none where it has no counter.
    pub fn next_number(&self, table: &Name) -> Option<u64>
        ensures { result ≡ next_of table.now self.now.counters }
    {
        next_of(self.counters.as_slice(), table)
    }

    /// The counters after CREATE TABLE.
    pub fn counters_with(&self, schema: &Schema) -> Result<Vec<Counter>, AllocError>
        ensures { IfOk result (λ after. after.items ≡ self.now.counters ++ counter_of (record { schema = schema.now; rows = [] })) }
    {
        counters_with(self.alloc, self.counters.as_slice(), schema)
    }

    /// The counters after DROP TABLE.
    pub fn counters_without(&self, name: &Name) -> Result<Vec<Counter>, AllocError>
        ensures { IfOk result (λ after. after.items ≡ counters_without name.now self.now.counters) }
    {
        counters_without(self.alloc, self.counters.as_slice(), name)
    }

    /// The counters after RENAME TABLE.
    pub fn counters_renamed(&self, pairs: &Pairs) -> Result<Vec<Counter>, AllocError>
        ensures { IfOk result (λ after. after.items ≡ counters_renamed pairs.now self.now.counters) }
    {
        counters_renamed(self.alloc, self.counters.as_slice(), pairs.as_slice())
    }

    /// The counters move by a turn that had this answer. The number is given that was drawn.
    pub fn move_counters(&mut self, counter_move: CounterMove<'_>, answer: &Answer) -> Option<u64>
        ensures drawn { result ≡ drawn_in_move counter_move.entry answer.now }
        ensures counters { self.new ≡ recounted (moved counter_move.entry answer.now self.old.counters) self.old }
    {
        match counter_move {
            CounterMove::Stay => None,
            CounterMove::Raise {
                table,
                drawn,
                given,
            } => {
                let drawn = drawn_by(answer, drawn);
                raise(&mut self.counters, table, after_drawn(drawn));
                raise(&mut self.counters, table, after_given(answer, given));
                drawn
            }
            CounterMove::Become(counters) => {
                if let Answer::Ok(_) = answer {
                    self.counters = counters;
                }
                None
            }
            CounterMove::Set { table, number } => {
                if let Answer::Ok(_) = answer {
                    raise(&mut self.counters, table, number);
                }
                None
            }
        }
    }

    /// The session's request that waits.
    pub fn waiting(&self, session: u32) -> Option<&Waiting>
        ensures { option_copied result ≡ waiting_of session self.now.waiting }
    {
        waiting_of(self.sessions.waiting(), session)
    }

    /// Whether the session holds LOCK TABLES and the request names a table that it hasn't locked.
    pub fn is_outside(&self, session: u32, request: &Request) -> bool
        ensures { result ≡ is_outside (session_of session self.now.sessions) request.now }
    {
        self.sessions.is_outside(session, request)
    }

    /// The least session that blocks a name which the request mentions, or one of these row locks.
    pub fn blocker(&self, session: u32, request: &Request, locks: &[Lock]) -> Option<u32>
        ensures { result ≡ blocker self.now session (record { exclusive = is_exclusive request.now; names = names_in request.now; locks = locks.now }) }
    {
        let names = self.sessions.names_blocker(session, request);
        least(names, self.sessions.blocker(session, locks))
    }

    /// How many events the log has.
    pub fn log_end(&self) -> u64
        ensures { result ≡ length self.now.log }
    {
        self.log.end()
    }

    /// The first events of these tables at the position or after it, and where the next ones are read.
    pub fn read_log(&self, position: u64, limit: u32, tables: &Names) -> Result<Answer, AllocError>
        requires { 1 ≤ limit }
        ensures { IfOk result (λ answer. answer ≡ events_read position limit tables.now self.now.log) }
    {
        self.log.after(position, limit, tables)
    }

    /// How many events of these tables are at the position or after it.
    #[tactic(auto, unfolding(server_model::specs::States::unread))]
    pub fn unread(&self, position: u64, tables: &Names) -> u64
        ensures { result ≡ unread self.now position tables.now }
    {
        self.log.unread(position, tables)
    }

    /// Who waits for names exclusively, by rising number of the session.
    #[tactic(auto, unfolding(server_model::specs::Listings::waits_shown))]
    pub fn waits_shown(&self) -> Result<ShownWaiters, AllocError>
        ensures { IfOk result (λ shown. shown ≡ waits_shown self.now) }
    {
        waits_shown(self.alloc, &self.sessions)
    }
}

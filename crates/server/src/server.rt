//! The server.

ghost use Rattle.std.specs.Prelude.{◌≡◌, ◌≤◌, ℕ, []};
ghost use Rattle.std.specs.List.{flat_map};
ghost use Rattle.server_model.specs.States.{counter_of, opened};
ghost use Rattle.server_model.specs.LockedRows.Databases.{IsWellFormedDatabase};
ghost use Rattle.server_storage.specs.Storage.{committed, written};
ghost use Rattle.server.specs.Parts.{HaveValidSchemas};

use crate::calls::{call, poll};
use crate::known_blockers::KnownBlockers;
use crate::losses::lose_session;
use base_script::Side;
use base_values::Names;
use server_api::Serve;
use server_model::{Answer, Asked, Counter, Limits, Request};
use server_sessions::live_sessions::Sessions;
use server_storage::Storage;
use std::alloc::{AllocError, Global};
use std::marker::Model;
use table_store::paged_tables::Tables;

/// The server, whose answers to every session are the plain server's. Contracts see the plain server's state.
#[derive(Drop)]
pub struct Server {
    storage: Storage,
    all_sessions: Sessions,
    known: KnownBlockers,
    drawn: Option<u64>,
}

impl Model for Server {
    ghost use Rattle.server_storage.specs.Storage.{committed, written};
    ghost use Rattle.server.specs.KnownBlockers.{IsServer};
    ghost use Rattle.server.specs.Parts.{state_of, ServedState};

    ghost Value = { ServedState };

    ghost view = { λ s. record { state = state_of (committed s.storage) s.all_sessions; drawn = s.drawn } };

    ghost invariant = { λ s. IsServer (committed s.storage) (written s.storage) s.all_sessions s.known };
}

impl Server {
    /// The server at its start, over a storage to which no transaction wrote yet, with the counters of its tables. A wait may be
    /// polled once at least. How many events are unread is known at once of the tables that are watched.
    pub fn open(
        alloc: Global,
        storage: Storage,
        limits: Limits,
        watched: Names,
        counters: Vec<Counter>,
    ) -> Server
        requires counters { counters.items ≡ flat_map counter_of (committed storage) }
        requires clients { 1 ≤ limits.client_wait }
        requires tools { 1 ≤ limits.tool_wait }
        requires valid { HaveValidSchemas (committed storage) }
        requires well_formed { IsWellFormedDatabase (committed storage) }
        requires unwritten { (session : ℕ) → written storage session ≡ [] }
        ensures { result.state ≡ opened limits (committed storage) }
    {
        Server {
            storage,
            all_sessions: Sessions::new(alloc, limits, watched, counters),
            known: KnownBlockers::new(alloc),
            drawn: None,
        }
    }
}

impl Serve for Server {
    ghost state = { λ s. s.state };

    ghost drawn = { λ s. s.drawn };

    fn connect(&mut self, is_tool: bool) -> Result<u32, AllocError> {
        self.known.forget();
        self.all_sessions.connect(is_tool)
    }

    fn pass(&mut self) -> u32 {
        self.known.forget();
        self.all_sessions.pass()
    }

    fn made(&self) -> u32 {
        self.all_sessions.made()
    }

    fn call(&mut self, session: u32, request: &Request) -> Result<Answer, AllocError> {
        let served = call(
            &mut self.storage,
            &mut self.all_sessions,
            &mut self.known,
            session,
            request,
        )?;
        self.drawn = served.drawn;
        Ok(served.answer)
    }

    fn poll(&mut self, session: u32) -> Result<Answer, AllocError> {
        let served = poll(
            &mut self.storage,
            &mut self.all_sessions,
            &mut self.known,
            session,
        )?;
        self.drawn = served.drawn;
        Ok(served.answer)
    }

    fn lose(
        &mut self,
        session: u32,
        side: Option<Side>,
        asked: &Asked,
    ) -> Result<Option<Answer>, AllocError> {
        let missed = lose_session(
            &mut self.storage,
            &mut self.all_sessions,
            &mut self.known,
            session,
            side,
            asked,
        );
        self.known.forget();
        match missed? {
            Some(served) => {
                self.drawn = served.drawn;
                Ok(Some(served.answer))
            }
            None => {
                self.drawn = None;
                Ok(None)
            }
        }
    }

    fn last_drawn(&self) -> Option<u64> {
        self.drawn
    }

    fn live(&self, session: u32) -> bool {
        self.all_sessions.is_live(session)
    }

    fn waits(&self, session: u32) -> bool {
        self.all_sessions.is_waiting(session)
    }

    fn in_transaction(&self, session: u32) -> bool {
        self.all_sessions.is_in_transaction(session)
    }

    fn locked(&self, session: u32) -> bool {
        self.all_sessions.holds_tables(session)
    }

    fn log_length(&self) -> u64 {
        self.all_sessions.log_end()
    }

    fn unread(&self, position: u64, tables: &Names) -> u64 {
        self.all_sessions.unread(position, tables)
    }

    fn tables(&self) -> &Tables {
        self.storage.tables()
    }
}

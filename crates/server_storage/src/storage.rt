//! A server's storage: the committed tables, and the open transactions over them.

ghost use Rattle.std.specs.Prelude.{◌≡◌, ◌==◌, ℕ, true, false, [], ◌∷◌, ◌++◌, Ok, IfOk, IfErr, IsOk, OnOk, OnErr};
ghost use Rattle.base_values.specs.Faults.{Refuses};
ghost use Rattle.table_store.specs.Databases.{database, has_table, rename_tables, without_table};
ghost use Rattle.server_model.specs.declared.request.Request.TheVariants.{Create};
ghost use Rattle.server_model.specs.Blockers.{row_locks_of};
ghost use Rattle.server_model.specs.Conditions.{IsWellFormed};
ghost use Rattle.server_model.specs.LockedRows.Databases.{IsWellFormedDatabase};
ghost use Rattle.server_model.specs.Operations.{after_events, operation_of};
ghost use Rattle.server_model.specs.States.{is_exclusive, pair_names};
ghost use Rattle.server_transaction.specs.FittingEvents.{EventsFit, NoneOf};
ghost use Rattle.server_transaction.specs.Premises.{events_ready};
ghost use Rattle.server_transaction.specs.Prepared.{IsSoundWork, IsWorkFor, IsWorkOf, work_result};
ghost use Rattle.server_storage.specs.Ready.{AreReady};
ghost use Rattle.server_storage.specs.Storage.{committed, written};

use crate::definitions::{create_table, drop_table, rename_tables};
use crate::ending::{commit_txn, roll_back_txn};
use crate::lookup::{execute_seen, find_seen};
use crate::making_room::make_ready;
use crate::open_txns::{OpenTxn, events_of, write_in};
use crate::preparation::prepare_request;
use base_script::Statement;
use base_values::gho_schema::Schema;
use base_values::{Name, RowEvent};
use server_execute::FoundWork;
use server_model::Request;
use server_transaction::{Prepared, ReadyResult, Writes};
use std::alloc::{AllocError, Global};
use std::marker::Model;
use table_store::paged_tables::Tables;
use table_store::{Pairs, RenameFault};

/// The committed tables, and what each session's open transaction wrote to them (MySQL's manual, "InnoDB Transaction
/// Model", "Consistent Nonlocking Reads": a session sees the committed tables with its own writes). A session that wrote
/// nothing has no open transaction here. Room for all open commits is made when something is written, so that a commit takes
/// no memory. Where there is no memory for a call, all is as before.
pub struct Storage {
    alloc: Global,
    tables: Tables,
    txns: Vec<OpenTxn>,
}

// By hand: crates above then take it as one call, and don't prove the drop of each part again.
impl Drop for Storage {
    fn drop(self) {
        let Storage {
            alloc: _,
            tables,
            txns,
        } = self;
        drop(tables);
        drop(txns);
    }
}

impl Model for Storage {
    ghost use Rattle.server_storage.specs.KeptTxns.Kept.{IsKept};
    ghost use Rattle.server_storage.specs.Storage.{StorageState};

    ghost Value = { StorageState };

    ghost view = { λ s. record { tables = s.tables; txns = s.txns.items } };

    ghost invariant = { λ s. IsKept s.tables s.txns.items };
}

impl Storage {
    /// These tables, to which no session wrote.
    pub fn new(alloc: Global, tables: Tables) -> Storage
        requires { IsWellFormedDatabase (database tables) }
        ensures committed { committed result ≡ database tables }
        ensures written { (session : ℕ) → written result session ≡ [] }
    {
        Storage {
            alloc,
            tables,
            txns: Vec::new(alloc),
        }
    }

    /// The committed tables.
    pub fn tables(&self) -> &Tables
        ensures { database result.now ≡ committed self.now }
    {
        &self.tables
    }

    /// What the session's open transaction wrote, in order: the log gets it at the commit.
    pub fn events_written(&self, session: u32) -> &[RowEvent]
        ensures { result.now ≡ written self.now session }
    {
        events_of(self.txns.as_slice(), session)
    }

    /// The session's request, prepared: what it is to do to rows, and the row locks that it needs. One for exclusive names takes
    /// no memory.
    pub fn prepare(&self, session: u32, request: &Request) -> Result<Prepared, AllocError>
        ensures locks { IfOk result (λ prepared. prepared.locks ≡ row_locks_of (after_events (committed self.now) (written self.now session)) request.now) }
        ensures work { IfOk result (λ prepared. IsWorkFor (after_events (committed self.now) (written self.now session)) request.now prepared.work) }
        ensures free { is_exclusive request.now ≡ true → IsOk result }
    {
        prepare_request(
            self.alloc,
            &self.tables,
            self.txns.as_slice(),
            session,
            request,
        )
    }

    /// What the session's statement is to do, with the rows that it meets: for one that is alone, and asks for no locks.
    pub fn find_work(
        &self,
        session: u32,
        statement: &Statement,
    ) -> Result<Option<FoundWork>, AllocError>
        ensures { IfOk result (λ work. IsWorkOf (after_events (committed self.now) (written self.now session)) (operation_of statement.now) work) }
    {
        find_seen(
            self.alloc,
            &self.tables,
            self.txns.as_slice(),
            session,
            statement,
        )
    }

    /// What the session's work gives that was prepared, done to the table of this name. Room is made for what it writes and for
    /// the commit.
    pub fn execute(
        &mut self,
        session: u32,
        table: &Name,
        work: Option<FoundWork>,
    ) -> Result<ReadyResult, AllocError>
        requires { IsSoundWork (after_events (committed self.old) (written self.old session)) table.now work }
        ensures answer { IfOk result (λ executed. executed.answer ≡ (work_result (after_events (committed self.old) (written self.old session)) table.now work).answer) }
        ensures events { IfOk result (λ executed. events_ready executed.writes ≡ (work_result (after_events (committed self.old) (written self.old session)) table.now work).events) }
        ensures ready { IfOk result (λ executed. AreReady self.new.tables self.new.txns session executed.writes) }
        ensures committed { committed self.new ≡ committed self.old }
        ensures written { (other : ℕ) → written self.new other ≡ written self.old other }
    {
        let executed = execute_seen(
            self.alloc,
            &self.tables,
            self.txns.as_slice(),
            session,
            table,
            work,
        )?;
        make_ready(
            self.alloc,
            &mut self.tables,
            &mut self.txns,
            session,
            executed,
        )
    }

    /// Writes what was made ready in the session's transaction, after what that wrote. It fits the tables as the session sees
    /// them, and leaves them tables.
    pub fn write(&mut self, session: u32, writes: Option<Writes>)
        requires ready { AreReady self.old.tables self.old.txns session writes }
        requires fit { EventsFit (after_events (committed self.old) (written self.old session)) (events_ready writes) }
        requires well_formed { IsWellFormedDatabase (after_events (after_events (committed self.old) (written self.old session)) (events_ready writes)) }
        ensures committed { committed self.new ≡ committed self.old }
        ensures own { written self.new session ≡ written self.old session ++ events_ready writes }
        ensures others { (other : ℕ) → (other == session) ≡ false → written self.new other ≡ written self.old other }
    {
        let Some(writes) = writes else {
            return;
        };
        write_in(&mut self.txns, session, writes);
    }

    /// Commits what the session wrote. What each other one wrote is to fit the tables as they then are, and to leave them
    /// tables.
    pub fn commit(&mut self, session: u32)
        requires fit { (other : ℕ) → (other == session) ≡ false → EventsFit (after_events (committed self.old) (written self.old session)) (written self.old other) }
        requires well_formed { (other : ℕ) → (other == session) ≡ false → IsWellFormedDatabase (after_events (after_events (committed self.old) (written self.old session)) (written self.old other)) }
        ensures committed { committed self.new ≡ after_events (committed self.old) (written self.old session) }
        ensures own { written self.new session ≡ [] }
        ensures others { (other : ℕ) → (other == session) ≡ false → written self.new other ≡ written self.old other }
    {
        commit_txn(&mut self.tables, &mut self.txns, session);
    }

    /// Forgets what the session wrote.
    pub fn roll_back(&mut self, session: u32)
        ensures committed { committed self.new ≡ committed self.old }
        ensures own { written self.new session ≡ [] }
        ensures others { (other : ℕ) → (other == session) ≡ false → written self.new other ≡ written self.old other }
    {
        roll_back_txn(&mut self.txns, session);
    }

    /// Makes a table without rows, after the others (CREATE TABLE).
    pub fn create(&mut self, schema: &Schema) -> Result<(), AllocError>
        requires absent { has_table schema.now.name (committed self.old) ≡ false }
        requires formed { IsWellFormed (committed self.old) (Create schema.now) }
        ensures ok { OnOk result (committed self.new ≡ committed self.old ++ record { schema = schema.now; rows = [] } ∷ []) }
        ensures err { OnErr result (committed self.new ≡ committed self.old) }
        ensures written { (session : ℕ) → written self.new session ≡ written self.old session }
    {
        create_table(self.alloc, &mut self.tables, schema)
    }

    /// Drops the table of this name, to which no open transaction wrote (DROP TABLE).
    pub fn drop_table(&mut self, name: &Name)
        requires { (session : ℕ) → NoneOf (name.now ∷ []) (written self.old session) }
        ensures committed { committed self.new ≡ without_table name.now (committed self.old) }
        ensures written { (session : ℕ) → written self.new session ≡ written self.old session }
    {
        drop_table(&mut self.tables, name);
    }

    /// Renames tables, to none of which an open transaction wrote, pair by pair from left to right; or none, where a pair
    /// is refused (RENAME TABLE).
    pub fn rename(&mut self, pairs: &Pairs) -> Result<(), RenameFault>
        requires { (session : ℕ) → NoneOf (pair_names pairs.now) (written self.old session) }
        ensures ok { OnOk result (rename_tables pairs.now (committed self.old) ≡ Ok (committed self.new)) }
        ensures fault { IfErr result (λ fault. Refuses fault (rename_tables pairs.now (committed self.old))) }
        ensures err { OnErr result (committed self.new ≡ committed self.old) }
        ensures written { (session : ℕ) → written self.new session ≡ written self.old session }
    {
        rename_tables(&mut self.tables, pairs)
    }
}

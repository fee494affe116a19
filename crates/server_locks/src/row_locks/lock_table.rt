//! The table of the row locks that are held.

mod blockers;
mod granted_lock;
mod grants;
pub mod held_spans;
mod list_orders;
mod lock_lists;
mod releases;

ghost use Rattle.std.specs.Prelude.{◌≡◌, [], None, IfOk, OnOk, OnErr};
ghost use Rattle.server_locks.specs.RowLocks.Grants.{answer_to, blocker_of_set};
ghost use Rattle.server_locks.specs.RowLocks.HeldSpans.{AreOn};
ghost use Rattle.server_locks.specs.RowLocks.LockTable.{IsLastAskOf, granted, asked, freed, undone};

use crate::row_locks::lock::{Lock, LockAnswer, LockSet};
use crate::row_locks::lock_table::blockers::blocker_of_set;
use crate::row_locks::lock_table::grants::{held_back, put_all};
use crate::row_locks::lock_table::held_spans::{HeldSpans, held_on};
use crate::row_locks::lock_table::lock_lists::LockLists;
use crate::row_locks::lock_table::releases::{holds_one, take_away, take_back};
use base_values::Name;
use std::alloc::{AllocError, Global};
use std::marker::Model;

/// Where the last granted ask began.
#[derive(Clone, Copy)]
struct Mark {
    /// Who asked.
    session: u32,
    /// The number of its first grant.
    first: usize,
}

/// The row locks that sessions hold. A lock that is refused leaves no trace: who waits asks again.
pub struct RowLocks {
    alloc: Global,
    lists: LockLists,
    next: usize,
    last: Option<Mark>,
}

// By hand, so that crates above prove it as one call.
impl Drop for RowLocks {
    fn drop(self) {
        let RowLocks {
            alloc: _,
            lists,
            next: _,
            last: _,
        } = self;
        drop(lists);
    }
}

impl Model for RowLocks {
    ghost use Rattle.server_locks.specs.RowLocks.LockTable.{LockTable};
    ghost use Rattle.server_locks.specs.RowLocks.LockLists.{AreConsistent};
    ghost use Rattle.server_locks.specs.RowLocks.Marks.{table_of};

    ghost Value = { LockTable };

    ghost view = { λ r. table_of r.lists r.last };

    ghost invariant = { λ r. AreConsistent r.next r.lists };
}

impl RowLocks {
    /// No lock is held.
    pub fn new(alloc: Global) -> RowLocks
        ensures { result ≡ record { held = []; last = None } }
    {
        RowLocks {
            alloc,
            lists: LockLists::new(alloc),
            next: 0,
            last: None,
        }
    }

    /// The least session that refuses one of the locks.
    pub fn blocker(&self, session: u32, set: &[Lock]) -> Option<u32>
        ensures { result ≡ blocker_of_set self.now.held session set.now }
    {
        blocker_of_set(&self.lists, session, set)
    }

    /// What `ask` would answer.
    pub fn test(&self, session: u32, set: &LockSet) -> LockAnswer
        ensures { result ≡ answer_to self.now.held session set.now }
    {
        match self.blocker(session, set.as_slice()) {
            None => LockAnswer::Granted,
            Some(by) => LockAnswer::Waits { by },
        }
    }

    /// The locks that are held on this key of this table, by rising low end, ties by session.
    pub fn held(&self, table: &Name, key: usize) -> HeldSpans<'_>
        ensures { AreOn table.now key self.now.held result }
    {
        held_on(&self.lists, table, key)
    }

    /// Gives the session all the locks of the set, for who tested them.
    pub fn grant(&mut self, session: u32, set: &LockSet) -> Result<(), AllocError>
        ensures ok { OnOk result (self.new ≡ granted self.old session set.now) }
        ensures err { OnErr result (self.new ≡ self.old) }
    {
        let first = self.next;
        let added = held_back(self.alloc, session, set.as_slice())?;
        let Some(next) = first.checked_add(added.len()) else {
            return Err(AllocError);
        };
        self.lists.reserve(added.len())?;
        put_all(&mut self.lists, added, first);
        self.next = next;
        self.last = Some(Mark { session, first });
        Ok(())
    }

    /// Gives the session all the locks of the set, or none where another session's lock refuses one of them.
    pub fn ask(&mut self, session: u32, set: &LockSet) -> Result<LockAnswer, AllocError>
        ensures answer { IfOk result (λ answer. answer ≡ answer_to self.old.held session set.now) }
        ensures ok { OnOk result (self.new ≡ asked self.old session set.now) }
        ensures err { OnErr result (self.new ≡ self.old) }
    {
        let answer = self.test(session, set);
        if answer == LockAnswer::Granted {
            self.grant(session, set)?;
        }
        Ok(answer)
    }

    /// Takes away all that the session holds.
    pub fn free(&mut self, session: u32)
        ensures { self.new ≡ freed self.old session }
    {
        if holds_one(&self.lists, session) {
            take_away(&mut self.lists, session);
            self.last = None;
        }
    }

    /// Takes back the session's ask, which was the last call that changed anything.
    pub fn undo(&mut self, session: u32)
        requires { IsLastAskOf session self.old }
        ensures { self.new ≡ undone self.old }
    {
        if let Some(mark) = self.last
            && mark.session == session
        {
            take_back(&mut self.lists, mark.first);
            self.last = None;
        }
    }
}

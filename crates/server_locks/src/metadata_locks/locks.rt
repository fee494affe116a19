//! The table of the names that are held and waited for.

ghost use Rattle.std.specs.Prelude.{◌≡◌, ℕ, ◌+◌, ◌-◌, ◌<◌, ◌≤◌, [], ◌++◌, map, take, drop, length, min, true, false, Some, None, IfOk, OnOk, OnErr, vec_len, vec_capacity};
ghost use Rattle.std.specs.List.{list_any};
ghost use Rattle.server_locks.specs.declared.metadata_locks.request.Waiter.{Waiter};
ghost use Rattle.server_locks.specs.MetadataLocks.Grants.{answer_by, blocker_of_name, blocker_of_names, holder_of, holds};
ghost use Rattle.server_locks.specs.MetadataLocks.LockTable.{IsLastAskOf, blocker_of, blocker_of_poll, asked, asked_by, granted, with_added, held_by, lined_up, polled, polled_by, freed, let_go, undone, ended, waits, waits_ended, can_end, is_own, own_names, place_among};
ghost use Rattle.server_locks.specs.MetadataLocks.Requests.{as_waiter};
ghost use Rattle.server_locks.specs.MetadataLocks.WaitQueue.{IsAt, round};

use crate::metadata_locks::grants::{
    holds_own, is_holding, names_to_add, names_to_take, place_of_name, take_away, take_away_own,
};
use crate::metadata_locks::refusals::{blocker_of_name, blocker_of_names, holder_of, holds};
use crate::metadata_locks::request::{LockAnswer, Request, Waiter};
use crate::metadata_locks::waits::{end_waits, place_of};
use base_values::{Duplicate, Name, Names};
use std::alloc::{AllocError, Global};
use std::marker::Model;

/// What the last ask or poll did to the requests that wait.
#[derive(Clone, Copy)]
enum Step {
    /// It was an ask, before which this many waited.
    Asked(usize),
    /// It was a poll that was granted, of the request at this place.
    Polled(usize),
}

/// Where the last ask or poll that changed anything began.
#[derive(Clone, Copy)]
struct Mark {
    /// Who asked or polled.
    session: u32,
    /// Whether for exclusive locks.
    exclusive: bool,
    /// How many requests were granted before.
    granted: usize,
    /// What waited before.
    step: Step,
}

/// The names that sessions hold, shared or exclusively, and the requests that wait to hold some exclusively.
#[derive(Drop)]
pub struct MetaLocks {
    // Whole requests in two vectors: a poll moves one from the one to the other, and `undo` moves it back, without memory.
    granted: Vec<Request>,
    waiting: Vec<Waiter>,
    last: Option<Mark>,
}

impl Model for MetaLocks {
    ghost use Rattle.server_locks.specs.MetadataLocks.LockTable.{NameTable};

    ghost Value = { NameTable };

    ghost use Rattle.server_locks.specs.MetadataLocks.Requests.{table_of, IsRoomy};

    ghost view = { λ m. table_of m.granted.items m.waiting.items m.last };

    ghost invariant = { λ m. IsRoomy m.granted m.waiting m.last };
}

impl MetaLocks {
    /// No name is held or waited for.
    pub fn new(alloc: Global) -> MetaLocks
        ensures { result ≡ record { held = []; waiting = []; last = None } }
    {
        MetaLocks {
            granted: Vec::new(alloc),
            waiting: Vec::new(alloc),
            last: None,
        }
    }

    /// What `ask` would answer; and to a session that waits for just these names exclusively, what `poll` would.
    pub fn test(&self, session: u32, names: &Names, exclusive: bool) -> LockAnswer
        ensures { result ≡ answer_by (blocker_of self.now session exclusive names.now) }
    {
        match self.blocker(session, names, exclusive) {
            None => LockAnswer::Granted,
            Some(by) => LockAnswer::Waits { by },
        }
    }

    /// The least session that refuses the name.
    pub fn name_blocker(&self, session: u32, name: &Name, exclusive: bool) -> Option<u32>
        ensures { result ≡ blocker_of_name self.now.held self.now.waiting session name.now exclusive }
    {
        blocker_of_name(
            self.granted.as_slice(),
            self.waiting.as_slice(),
            session,
            name,
            exclusive,
        )
    }

    /// The least session that refuses one of the names.
    pub fn blocker(&self, session: u32, names: &Names, exclusive: bool) -> Option<u32>
        ensures { result ≡ blocker_of_names self.now.held self.now.waiting session exclusive names.now }
    {
        blocker_of_names(
            self.granted.as_slice(),
            self.waiting.as_slice(),
            session,
            exclusive,
            names.as_slice(),
        )
    }

    /// Gives the session all the names, or none where another session refuses one. An exclusive request that is
    /// refused waits from then on.
    pub fn ask(
        &mut self,
        session: u32,
        names: &Names,
        exclusive: bool,
    ) -> Result<LockAnswer, AllocError>
        requires { waits self.old session ≡ false }
        ensures answer { IfOk result (λ answer. answer ≡ answer_by (blocker_of self.old session exclusive names.now)) }
        ensures ok { OnOk result (self.new ≡ asked self.old session exclusive names.now) }
        ensures err { OnErr result (self.new ≡ self.old) }
    {
        match self.blocker(session, names, exclusive) {
            None => {
                self.grant_asked(session, names, exclusive)?;
                Ok(LockAnswer::Granted)
            }
            Some(by) => {
                if exclusive {
                    self.line_up(session, names.copy()?)?;
                }
                Ok(LockAnswer::Waits { by })
            }
        }
    }

    /// Grants what was asked for.
    fn grant_asked(
        &mut self,
        session: u32,
        names: &Names,
        exclusive: bool,
    ) -> Result<(), AllocError>
        ensures ok { OnOk result (self.new ≡ asked_by None self.old session exclusive names.now) }
        ensures err { OnErr result (self.new ≡ self.old) }
    {
        let alloc = *self.granted.allocator();
        let names = names_to_add(alloc, self.granted.as_slice(), session, names, exclusive)?;
        self.add(session, names, exclusive)
    }

    /// Gives the session all the names, for who tested them. Shared locks are added also on names that it holds exclusively,
    /// since they stay once those are free.
    pub fn grant(&mut self, session: u32, names: &Names, exclusive: bool) -> Result<(), AllocError>
        ensures ok { OnOk result (self.new ≡ granted self.old session exclusive names.now) }
        ensures err { OnErr result (self.new ≡ self.old) }
    {
        let alloc = *self.granted.allocator();
        let names = names_to_take(alloc, self.granted.as_slice(), session, names, exclusive)?;
        self.add(session, names, exclusive)
    }

    /// The session holds these names too.
    fn add(&mut self, session: u32, names: Names, exclusive: bool) -> Result<(), AllocError>
        ensures ok { OnOk result (self.new ≡ with_added self.old session exclusive (map (held_by session exclusive) names)) }
        ensures err { OnErr result (self.new ≡ self.old) }
    {
        self.granted.reserve(self.waiting.len() + 1)?;
        let mark = Mark {
            session,
            exclusive,
            granted: self.granted.len(),
            step: Step::Asked(self.waiting.len()),
        };
        if !names.is_empty() {
            self.granted.push(Request {
                session,
                names,
                exclusive,
            })?;
        }
        self.last = Some(mark);
        Ok(())
    }

    /// Lets the request for exclusive locks wait after all others, for who tested it.
    pub fn line_up(&mut self, session: u32, names: Names) -> Result<(), AllocError>
        ensures ok { OnOk result (self.new ≡ lined_up self.old session names) }
        ensures err { OnErr result (self.new ≡ self.old) }
    {
        self.granted.reserve(self.waiting.len() + 1)?;
        let mark = Mark {
            session,
            exclusive: true,
            granted: self.granted.len(),
            step: Step::Asked(self.waiting.len()),
        };
        self.waiting.push(Waiter { session, names })?;
        self.last = Some(mark);
        Ok(())
    }

    /// Asks again for the session's request that waits.
    pub fn poll(&mut self, session: u32) -> LockAnswer
        requires { waits self.old session ≡ true }
        ensures answer { result ≡ answer_by (blocker_of_poll self.old session) }
        ensures after { self.new ≡ polled self.old session }
    {
        match place_of(self.waiting.as_slice(), session) {
            None => unreachable!(),
            Some(place) => self.poll_at(session, place),
        }
    }

    /// Asks again for the session's request, which is at this place.
    fn poll_at(&mut self, session: u32, place: usize) -> LockAnswer
        requires { IsAt session self.old.waiting place }
        ensures answer { result ≡ answer_by (blocker_of_poll self.old session) }
        ensures after { self.new ≡ polled self.old session }
    {
        let waiter = &self.waiting[place];
        match self.blocker(session, &waiter.names, true) {
            None => {
                self.grant_waiter(session, place);
                LockAnswer::Granted
            }
            Some(by) => LockAnswer::Waits { by },
        }
    }

    /// Grants the session's request, which is at this place, and for which `ask` has made the room.
    fn grant_waiter(&mut self, session: u32, place: usize)
        requires { IsAt session self.old.waiting place }
        ensures { (past : Waiter) → self.new ≡ polled_by None self.old session (round self.old.waiting place past) }
    {
        let granted = self.granted.len();
        let waiter = self.waiting.remove(place);
        let request = Request {
            session: waiter.session,
            names: waiter.names,
            exclusive: true,
        };
        self.granted.push_reserved(request);
        self.last = Some(Mark {
            session,
            exclusive: true,
            granted,
            step: Step::Polled(place),
        });
    }

    /// Takes away all that the session holds, and its request that waits.
    pub fn free(&mut self, session: u32)
        ensures { self.new ≡ freed self.old session }
    {
        let place = place_of(self.waiting.as_slice(), session);
        if place.is_some() || is_holding(self.granted.as_slice(), session) {
            take_away(&mut self.granted, session);
            if let Some(place) = place {
                let _waiter = self.waiting.remove(place);
            }
            self.last = None;
        }
    }

    /// Takes away all that the session holds exclusively, or else all that it holds shared, as is asked.
    pub fn let_go(&mut self, session: u32, exclusive: bool)
        ensures { self.new ≡ let_go self.old session exclusive }
    {
        take_away_own(&mut self.granted, session, exclusive);
        self.last = None;
    }

    /// The session waits no more: its requests that wait are taken away.
    pub fn end_waits(&mut self, session: u32)
        ensures { self.new ≡ waits_ended self.old session }
    {
        end_waits(&mut self.waiting, session);
        self.last = None;
    }

    /// Who holds the name exclusively.
    pub fn held_by(&self, name: &Name) -> Option<u32>
        ensures { result ≡ holder_of self.now.held name.now }
    {
        holder_of(self.granted.as_slice(), name)
    }

    /// Whether the session holds the name, exclusively where that is asked.
    pub fn holds(&self, session: u32, name: &Name, exclusive: bool) -> bool
        ensures { result ≡ holds self.now.held session name.now exclusive }
    {
        holds(self.granted.as_slice(), session, name, exclusive)
    }

    /// Whether the session holds a name exclusively, or else shared, as is asked.
    pub fn holds_any(&self, session: u32, exclusive: bool) -> bool
        ensures { result ≡ list_any (is_own session exclusive) self.now.held }
    {
        holds_own(self.granted.as_slice(), session, exclusive)
    }

    /// How many of the names that the session holds exclusively, or else shared, come before this one: its place, where it is
    /// one of them. A count that would be no `usize` stands still.
    pub fn place(&self, session: u32, name: &Name, exclusive: bool) -> usize
        ensures { result ≡ min (place_among (own_names session exclusive self.now.held) name.now) usize.MAX }
    {
        place_of_name(self.granted.as_slice(), session, name, exclusive)
    }

    /// Whether the session has a request that waits.
    pub fn waiting(&self, session: u32) -> bool
        ensures { result ≡ waits self.now session }
    {
        place_of(self.waiting.as_slice(), session).is_some()
    }

    /// Takes back the session's ask or poll, which was the last call that changed anything.
    pub fn undo(&mut self, session: u32)
        requires { IsLastAskOf session self.old }
        ensures { self.new ≡ undone self.old }
    {
        if let Some(mark) = self.last
            && mark.session == session
        {
            match mark.step {
                Step::Asked(waiting) => {
                    self.granted.truncate(mark.granted);
                    self.waiting.truncate(waiting);
                }
                Step::Polled(place) => {
                    put_back(&mut self.granted, &mut self.waiting, place);
                }
            }
            self.last = None;
        }
    }

    /// Ends the session's request: one that waits is taken away; of one that was just granted, what it added.
    pub fn end(&mut self, session: u32)
        requires { can_end self.old session ≡ true }
        ensures { self.new ≡ ended self.old session }
    {
        match place_of(self.waiting.as_slice(), session) {
            Some(place) => {
                let _waiter = self.waiting.remove(place);
            }
            None => {
                if let Some(mark) = self.last {
                    self.granted.truncate(mark.granted);
                }
            }
        }
        self.last = None;
    }
}

/// Lets the request that was granted last wait again, at this place.
fn put_back(granted: &mut Vec<Request>, waiting: &mut Vec<Waiter>, place: usize)
    requires granted { 0 < vec_len granted.old }
    requires within { place ≤ vec_len waiting.old }
    requires room { vec_len waiting.old < vec_capacity waiting.old }
    ensures granted { granted.new.items ≡ take (vec_len granted.old - 1) granted.old.items }
    ensures waiting { waiting.new.items ≡ take place waiting.old.items ++ map as_waiter (drop (vec_len granted.old - 1) granted.old.items) ++ drop place waiting.old.items }
    ensures granted_room { (vec_len granted.new + 1 ≡ vec_len granted.old) × (vec_capacity granted.old ≤ vec_capacity granted.new) }
    ensures waiting_room { vec_len waiting.new ≡ vec_len waiting.old + 1 }
{
    let Some(request) = granted.pop() else {
        unreachable!()
    };
    let waiter = Waiter {
        session: request.session,
        names: request.names,
    };
    match waiting.insert(place, waiter) {
        Ok(()) => {}
        Err(_) => unreachable!(),
    }
}

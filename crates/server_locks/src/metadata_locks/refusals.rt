//! Who refuses a name.

ghost use Rattle.std.specs.Prelude.{◌≡◌, true, false};
ghost use Rattle.server_locks.specs.MetadataLocks.Grants.{holds, least_holder, least_waiter, waiting_session, holder_of, blocker_of_name, blocker_of_names};
ghost use Rattle.server_locks.specs.MetadataLocks.Requests.{all_locks};

use crate::least_session::least;
use crate::metadata_locks::request::{Request, Waiter, has_name};
use crate::metadata_locks::waits::ahead_of;
use base_values::Name;

/// Whether the session holds the name, exclusively where that is asked.
#[tactic(auto, using(crate::proofs::MetadataLocks::Holders::of_all))]
pub fn holds(granted: &[Request], session: u32, name: &Name, exclusive: bool) -> bool
    ensures { result ≡ holds (all_locks granted.now) session name.now exclusive }
{
    for request in granted {
        if request.session == session && request.is_on(name, exclusive) {
            return true;
        }
    }
    false
}

/// The least other session that holds the name, exclusively where that is asked.
#[tactic(auto, using(crate::proofs::MetadataLocks::Holders::of_all))]
fn least_holder(granted: &[Request], session: u32, name: &Name, exclusive: bool) -> Option<u32>
    ensures { result ≡ least_holder (all_locks granted.now) session name.now exclusive }
{
    let mut by = None;
    for request in granted {
        by = least(by, request.holder(session, name, exclusive));
    }
    by
}

/// Who holds the name exclusively.
#[tactic(auto, using(crate::proofs::MetadataLocks::Holders::of_all))]
pub fn holder_of(granted: &[Request], name: &Name) -> Option<u32>
    ensures { result ≡ holder_of (all_locks granted.now) name.now }
{
    for request in granted {
        if request.is_on(name, true) {
            return Some(request.session);
        }
    }
    None
}

impl Waiter {
    /// The session, where it is another one and waits for the name.
    fn waiter(&self, session: u32, name: &Name) -> Option<u32>
        ensures { result ≡ waiting_session session name.now self.now }
    {
        if self.session != session && has_name(&self.names, name) {
            Some(self.session)
        } else {
            None
        }
    }
}

/// The least other session that waits for the name.
#[tactic(auto, using(crate::proofs::MetadataLocks::Holders::of_all), unfolding(crate::specs::MetadataLocks::Grants::least_waiter))]
fn least_waiter(waiting: &[Waiter], session: u32, name: &Name) -> Option<u32>
    ensures { result ≡ least_waiter waiting.now session name.now }
{
    let mut by = None;
    for waiter in waiting {
        by = least(by, waiter.waiter(session, name));
    }
    by
}

/// The least session that refuses a shared lock on the name.
#[tactic(auto, using(crate::proofs::MetadataLocks::Holders::of_all), unfolding(crate::specs::MetadataLocks::Grants::blocker_of_name))]
fn blocker_of_shared(
    granted: &[Request],
    waiting: &[Waiter],
    session: u32,
    name: &Name,
) -> Option<u32>
    ensures { result ≡ blocker_of_name (all_locks granted.now) waiting.now session name.now false }
{
    let holder = least_holder(granted, session, name, true);
    if holds(granted, session, name, false) {
        holder
    } else {
        least(holder, least_waiter(waiting, session, name))
    }
}

/// The least session that refuses an exclusive lock on the name.
#[tactic(auto, using(crate::proofs::MetadataLocks::Holders::of_all), unfolding(crate::specs::MetadataLocks::Grants::blocker_of_name))]
fn blocker_of_exclusive(
    granted: &[Request],
    waiting: &[Waiter],
    session: u32,
    name: &Name,
) -> Option<u32>
    ensures { result ≡ blocker_of_name (all_locks granted.now) waiting.now session name.now true }
{
    if holds(granted, session, name, true) {
        return None;
    }
    let holder = least_holder(granted, session, name, false);
    least(
        holder,
        least_waiter(ahead_of(waiting, session), session, name),
    )
}

/// The least session that refuses a lock on the name.
pub fn blocker_of_name(
    granted: &[Request],
    waiting: &[Waiter],
    session: u32,
    name: &Name,
    exclusive: bool,
) -> Option<u32>
    ensures { result ≡ blocker_of_name (all_locks granted.now) waiting.now session name.now exclusive }
{
    if exclusive {
        blocker_of_exclusive(granted, waiting, session, name)
    } else {
        blocker_of_shared(granted, waiting, session, name)
    }
}

/// The least session that refuses one of the names.
#[tactic(auto, using(crate::proofs::MetadataLocks::Holders::of_all), unfolding(crate::specs::MetadataLocks::Grants::blocker_of_names))]
pub fn blocker_of_names(
    granted: &[Request],
    waiting: &[Waiter],
    session: u32,
    exclusive: bool,
    names: &[Name],
) -> Option<u32>
    ensures { result ≡ blocker_of_names (all_locks granted.now) waiting.now session exclusive names.now }
{
    let mut by = None;
    for name in names {
        by = least(
            by,
            blocker_of_name(granted, waiting, session, name, exclusive),
        );
    }
    by
}

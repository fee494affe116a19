//! What a granted request adds to what is held, and what a session that leaves takes away.

ghost use Rattle.std.specs.Prelude.{◌≡◌, ◌==◌, ◌≤◌, ◌&&◌, if◌then◌else◌, nat_eq, not, false, filter, map, min, position, vec_len, vec_capacity, IfOk};
ghost use Rattle.std.specs.Cmp.Lexicographic.{pointwise};
ghost use Rattle.std.specs.List.{list_any};
ghost use Rattle.server_locks.specs.MetadataLocks.Grants.{holds};
ghost use Rattle.server_locks.specs.MetadataLocks.LockTable.{added, taken, shares, held_by, is_own, own_names, place_among};
ghost use Rattle.server_locks.specs.MetadataLocks.Requests.{locks_of, all_locks};

use crate::metadata_locks::refusals::holds;
use crate::metadata_locks::request::{Request, has_name};
use base_values::{Duplicate, Name, Names, Sequence};
use std::alloc::{AllocError, Global};

/// Those of the names that the session doesn't hold.
fn lacked(
    alloc: Global,
    granted: &[Request],
    session: u32,
    names: &[Name],
) -> Result<Names, AllocError>
    ensures { IfOk result (λ lacked. lacked ≡ filter (λ name. not (holds (all_locks granted.now) session name false)) names.now) }
{
    let mut lacked = Sequence::new(alloc);
    for name in names {
        if !holds(granted, session, name, false) {
            lacked.push(name.copy()?)?;
        }
    }
    Ok(lacked)
}

/// The names that a granted request adds: all where they are held exclusively, else those that the session lacks.
pub fn names_to_add(
    alloc: Global,
    granted: &[Request],
    session: u32,
    names: &Names,
    exclusive: bool,
) -> Result<Names, AllocError>
    ensures { IfOk result (λ more. map (held_by session exclusive) more ≡ added (all_locks granted.now) session exclusive names.now) }
{
    // An exclusive request adds all its names, so that its end takes away just what it added. A shared one adds what the
    // session lacks, so that the list of a long transaction doesn't grow with its statements.
    if exclusive {
        return names.copy();
    }
    let lacked = lacked(alloc, granted, session, names.as_slice())?;
    Ok(lacked)
}

impl Request {
    /// Whether the session has a shared lock on the name by this request.
    #[tactic(auto, using(crate::proofs::MetadataLocks::Shares::of_request))]
    fn shares(&self, session: u32, name: &Name) -> bool
        ensures { result ≡ shares (locks_of self.now) session name.now }
    {
        !self.exclusive && self.session == session && has_name(&self.names, name)
    }

    /// Whether the session holds its names by this request exclusively, or else shared, as is asked.
    fn is_own(&self, session: u32, exclusive: bool) -> bool
        ensures { result ≡ (self.now.session == session && (if exclusive then self.now.exclusive else not self.now.exclusive)) }
    {
        self.session == session && self.exclusive == exclusive
    }

    /// Whether the session holds a name by this request exclusively, or else shared, as is asked.
    #[tactic(auto, using(crate::proofs::MetadataLocks::Leaving::of_request))]
    fn has_own(&self, session: u32, exclusive: bool) -> bool
        ensures { result ≡ list_any (is_own session exclusive) (locks_of self.now) }
    {
        self.is_own(session, exclusive) && !self.names.is_empty()
    }

    /// Whether the session holds a name by this request.
    #[tactic(auto, using(crate::proofs::MetadataLocks::Leaving::of_request))]
    fn is_of(&self, session: u32) -> bool
        ensures { result ≡ list_any (λ held. held.session == session) (locks_of self.now) }
    {
        self.session == session && !self.names.is_empty()
    }
}

/// Whether the session has a shared lock on the name.
#[tactic(auto, using(crate::proofs::MetadataLocks::Shares::of_all))]
fn shares(granted: &[Request], session: u32, name: &Name) -> bool
    ensures { result ≡ shares (all_locks granted.now) session name.now }
{
    for request in granted {
        if request.shares(session, name) {
            return true;
        }
    }
    false
}

/// Those of the names on which the session has no shared lock.
fn unshared(
    alloc: Global,
    granted: &[Request],
    session: u32,
    names: &[Name],
) -> Result<Names, AllocError>
    ensures { IfOk result (λ unshared. unshared ≡ filter (λ name. not (shares (all_locks granted.now) session name)) names.now) }
{
    let mut unshared = Sequence::new(alloc);
    for name in names {
        if !shares(granted, session, name) {
            unshared.push(name.copy()?)?;
        }
    }
    Ok(unshared)
}

/// The names that are added for who tested them: all where they are held exclusively, else those without a shared lock.
pub fn names_to_take(
    alloc: Global,
    granted: &[Request],
    session: u32,
    names: &Names,
    exclusive: bool,
) -> Result<Names, AllocError>
    ensures { IfOk result (λ more. map (held_by session exclusive) more ≡ taken (all_locks granted.now) session exclusive names.now) }
{
    if exclusive {
        return names.copy();
    }
    let unshared = unshared(alloc, granted, session, names.as_slice())?;
    Ok(unshared)
}

/// Whether the session holds a name.
#[tactic(auto, using(crate::proofs::MetadataLocks::Leaving::of_all))]
pub fn is_holding(granted: &[Request], session: u32) -> bool
    ensures { result ≡ list_any (λ held. held.session == session) (all_locks granted.now) }
{
    for request in granted {
        if request.is_of(session) {
            return true;
        }
    }
    false
}

/// Whether the session holds a name exclusively, or else shared, as is asked.
#[tactic(auto, using(crate::proofs::MetadataLocks::Leaving::of_all))]
pub fn holds_own(granted: &[Request], session: u32, exclusive: bool) -> bool
    ensures { result ≡ list_any (is_own session exclusive) (all_locks granted.now) }
{
    for request in granted {
        if request.has_own(session, exclusive) {
            return true;
        }
    }
    false
}

/// The place of the name among these.
fn place_in(names: &[Name], name: &Name) -> Option<usize>
    ensures { result ≡ position (λ other. pointwise nat_eq other name.now) names.now }
{
    names.iter().position(|other| *other == *name)
}

/// How many of the names that the session holds exclusively, or else shared, come before this one. A count that would be no
/// `usize` stands still.
pub fn place_of_name(granted: &[Request], session: u32, name: &Name, exclusive: bool) -> usize
    ensures { result ≡ min (place_among (own_names session exclusive (all_locks granted.now)) name.now) usize.MAX }
{
    let mut passed: usize = 0;
    for request in granted {
        if request.is_own(session, exclusive) {
            match place_in(request.names.as_slice(), name) {
                Some(place) => return passed.saturating_add(place),
                None => passed = passed.saturating_add(request.names.len()),
            }
        }
    }
    passed
}

/// Takes away what the session was granted.
pub fn take_away(granted: &mut Vec<Request>, session: u32)
    ensures rest { all_locks granted.new.items ≡ filter (λ held. not (held.session == session)) (all_locks granted.old.items) }
    ensures room { (vec_len granted.new ≤ vec_len granted.old) × (vec_capacity granted.new ≡ vec_capacity granted.old) }
{
    granted.retain(|request| request.session != session);
}

/// Takes away what the session was granted exclusively, or else shared, as is asked.
pub fn take_away_own(granted: &mut Vec<Request>, session: u32, exclusive: bool)
    ensures rest { all_locks granted.new.items ≡ filter (λ held. not (is_own session exclusive held)) (all_locks granted.old.items) }
    ensures room { (vec_len granted.new ≤ vec_len granted.old) × (vec_capacity granted.new ≡ vec_capacity granted.old) }
{
    granted.retain(|request| !request.is_own(session, exclusive));
}

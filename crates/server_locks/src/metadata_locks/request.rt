//! Requests for names, and their answers.

ghost use Rattle.std.specs.Prelude.{◌≡◌, ◌&&◌, ◌||◌, not};
ghost use Rattle.server_locks.specs.MetadataLocks.Grants.{has_name, least_holder};
ghost use Rattle.server_locks.specs.MetadataLocks.Requests.{locks_of};

use base_values::{Name, Names};

/// What is answered to a session that asks for names.
#[derive(Clone, Copy, PartialEq, Eq)]
pub enum LockAnswer {
    /// It has them all now.
    Granted,
    /// It has no more than before, and must wait.
    Waits {
        /// The least session that refuses one of them.
        by: u32,
    },
}

/// A request that was granted: its names are held.
#[derive(Drop)]
pub struct Request {
    /// The session that asked.
    pub session: u32,
    /// The tables' names.
    pub names: Names,
    /// Whether they are held exclusively, or else shared.
    pub exclusive: bool,
}

/// A request for names that waits to hold them exclusively.
#[derive(Drop)]
pub struct Waiter {
    /// The session that asked.
    pub session: u32,
    /// The tables' names.
    pub names: Names,
}

/// Whether the name is among the names.
pub fn has_name(names: &Names, name: &Name) -> bool
    ensures { result ≡ has_name names.now name.now }
{
    names.as_slice().contains(name)
}

impl Request {
    /// Whether the name is held by this request, exclusively where that is asked.
    pub fn is_on(&self, name: &Name, exclusive: bool) -> bool
        ensures { result ≡ (has_name self.now.names name.now && (self.now.exclusive || not exclusive)) }
    {
        // Names are compared last.
        (self.exclusive || !exclusive) && has_name(&self.names, name)
    }

    /// The session, where it is another one and holds the name, exclusively where that is asked.
    #[tactic(auto, using(crate::proofs::MetadataLocks::Holders::of_request))]
    pub fn holder(&self, session: u32, name: &Name, exclusive: bool) -> Option<u32>
        ensures { result ≡ least_holder (locks_of self.now) session name.now exclusive }
    {
        if self.session != session && self.is_on(name, exclusive) {
            Some(self.session)
        } else {
            None
        }
    }
}

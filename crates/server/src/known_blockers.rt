//! Who blocks requests that wait, as far as it is known.

ghost use Rattle.std.specs.Prelude.{◌≡◌, ◌==◌, [], ◌∷◌, ◌++◌, not, ◌&&◌, find, option_copied, option_map, OnOk, OnErr};
ghost use Rattle.server.specs.KnownBlockers.{is_wait};
ghost use Rattle.server.specs.Parts.{is_look};

use server_model::{Answer, Request};
use std::alloc::{AllocError, Global};
use std::marker::Model;

/// The least session that blocks another one's request.
#[derive(Clone, Copy)]
pub struct KnownBlocker {
    /// The session whose request waits.
    pub session: u32,
    /// The session that blocks it.
    pub by: u32,
}

/// The least sessions that block requests that wait, as polls found them since anything last changed that a blocker depends on.
/// So a poll between which and the last one nothing changed is refused again without looking. A blocker depends on the
/// counters too: an INSERT needs the lock on the number that it would draw. No counter moves where a request waits. Contracts
/// see a list.
#[derive(Drop)]
pub struct KnownBlockers {
    known: Vec<KnownBlocker>,
}

impl Model for KnownBlockers {
    ghost use Rattle.std.specs.Prelude.{List};
    ghost use Rattle.server.specs.declared.known_blockers.KnownBlocker.{KnownBlocker};

    ghost Value = { List KnownBlocker };

    ghost view = { λ blockers. blockers.known.items };
}

/// What is known of the session's request.
fn known_of(known: &[KnownBlocker], session: u32) -> Option<&KnownBlocker>
    ensures { option_copied result ≡ find (λ one. one.session == session) known.now }
{
    known.iter().find(|one| one.session == session)
}

impl KnownBlockers {
    /// Nothing is known.
    pub fn new(alloc: Global) -> KnownBlockers
        ensures { result ≡ [] }
    {
        KnownBlockers {
            known: Vec::new(alloc),
        }
    }

    /// The session that blocks the request of this one, where it is known.
    pub fn blocker(&self, session: u32) -> Option<u32>
        ensures { result ≡ option_map (λ one. one.by) (find (λ one. one.session == session) self.now) }
    {
        match known_of(self.known.as_slice(), session) {
            Some(one) => Some(one.by),
            None => None,
        }
    }

    /// Keeps who blocks the session's request.
    pub fn note(&mut self, session: u32, by: u32) -> Result<(), AllocError>
        ensures ok { OnOk result (self.new ≡ self.old ++ record { session = session; by = by } ∷ []) }
        ensures err { OnErr result (self.new ≡ self.old) }
    {
        self.known.push(KnownBlocker { session, by })?;
        Ok(())
    }

    /// Nothing is known any more.
    pub fn forget(&mut self)
        ensures { self.new ≡ [] }
    {
        self.known.clear();
    }
}

/// Whether the answer says that the request waits.
fn is_wait(answer: &Answer) -> bool
    ensures { result ≡ is_wait answer.now }
{
    match answer {
        Answer::Waits { .. } => true,
        _ => false,
    }
}

/// Whether the request only looks at what there is.
fn is_look(request: &Request) -> bool
    ensures { result ≡ is_look request.now }
{
    match request {
        Request::Ends(_)
        | Request::ChunkEnd { .. }
        | Request::LogEnd
        | Request::ReadLog { .. }
        | Request::ShowTables
        | Request::ShowWaiting
        | Request::ShowCounter(_) => true,
        _ => false,
    }
}

/// Whether a request that was answered so has changed nothing.
pub fn is_answered_look(request: &Request, answer: &Answer) -> bool
    ensures { result ≡ (is_look request.now && not (is_wait answer.now)) }
{
    is_look(request) && !is_wait(answer)
}

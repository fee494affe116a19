//! What was asked in a turn, as a journal keeps it.

ghost use Rattle.std.specs.Prelude.{◌≡◌, Some};

use crate::entry::Asked;
use crate::lost_calls::{LostCall, lost_again, lost_request};
use crate::request::Request;
use std::marker::Model;
use std::snapshot::Snapshot;

/// What is kept of what was asked.
enum Kept {
    /// All of it.
    All(Asked),
    /// Of a call that was lost before it was done what a reader of the journal needs: nobody reads what the server never did. What
    /// it asked has no bytes.
    Lost(LostCall, Snapshot<Request>),
}

// By hand, so that crates above prove it as one call.
impl Drop for Kept {
    fn drop(self) {
        match self {
            Kept::All(asked) => drop(asked),
            Kept::Lost(_, request) => drop(request),
        }
    }
}

/// What was asked in a turn. Contracts see all of it.
pub struct TurnAsked {
    kept: Kept,
}

// By hand, so that crates above prove it as one call.
impl Drop for TurnAsked {
    fn drop(self) {
        let TurnAsked { kept } = self;
        drop(kept);
    }
}

impl Model for TurnAsked {
    ghost use Rattle.server_model.specs.declared.entry.Asked.{Asked};
    ghost use Rattle.server_model.specs.TurnsAsked.{asked_of, IsKept};

    ghost Value = { Asked };

    ghost view = { λ t. asked_of t.kept };

    ghost invariant = { λ t. IsKept t.kept };
}

/// What was asked in a turn, as far as it is kept.
#[derive(Drop)]
pub enum AskedView<'a> {
    /// All of it.
    All(&'a Asked),
    /// A call that was lost before it was done.
    Lost(LostCall, Snapshot<Request>),
}

impl TurnAsked {
    ghost use Rattle.server_model.specs.Entries.{is_command, is_cut};
    ghost use Rattle.server_model.specs.LostCalls.{lost_in};
    ghost use Rattle.server_model.specs.declared.entry.Asked.{Asked};
    ghost use Rattle.server_model.specs.TurnsAsked.{asked_seen, IsLostAs};

    /// All that was asked is kept.
    pub fn all(asked: Asked) -> TurnAsked
        ensures { result ≡ asked }
    {
        TurnAsked {
            kept: Kept::All(asked),
        }
    }

    /// Of a call that was lost before it was done this alone is kept. It takes no memory.
    #[tactic(auto, using(crate::proofs::LostCalls::lost_called, crate::proofs::LostCalls::called_is))]
    pub fn lost(lost: LostCall) -> TurnAsked
        ghost asked: { Asked }
        requires { lost_in asked ≡ Some lost }
        ensures { result ≡ asked }
    {
        TurnAsked {
            kept: Kept::Lost(lost, lost_request()),
        }
    }

    /// What was asked, as far as it is kept.
    pub fn view(&self) -> AskedView<'_>
        ensures asked { asked_seen result ≡ self.now }
        ensures lost { IsLostAs result }
    {
        match &self.kept {
            Kept::All(asked) => AskedView::All(asked),
            Kept::Lost(lost, request) => AskedView::Lost(*lost, lost_again(request)),
        }
    }

    /// Whether it is a command of the operator's.
    pub fn is_command(&self) -> bool
        ensures { result ≡ is_command self.now }
    {
        matches!(self.kept, Kept::All(Asked::Command(_)))
    }

    /// Whether it is a loss between calls.
    pub fn is_cut(&self) -> bool
        ensures { result ≡ is_cut self.now }
    {
        matches!(self.kept, Kept::All(Asked::Cut))
    }
}

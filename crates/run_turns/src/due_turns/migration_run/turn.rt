//! What an actor asks in its turn.

ghost use Rattle.std.specs.Prelude.{◌≡◌};
ghost use Rattle.run_turns.specs.DueTurns.MigrationRun.ServerTurns.{is_lost_in};

use base_script::{Actor, Side};
use server_model::{Asked, AskedView, TurnAsked};

/// What an actor asks in its turn, and where its session is lost in it.
pub struct Turn {
    /// Whose turn it is.
    pub actor: Actor,
    /// Where the session is lost: before the call is done, or after.
    pub side: Option<Side>,
    /// What is asked.
    pub asked: TurnAsked,
}

// By hand, and by a call for what is asked: a function that lets a turn go, here or in a crate above, then has one call, and
// doesn't prove the drop of each part again.
impl Drop for Turn {
    fn drop(self) {
        let Turn {
            actor: _,
            side: _,
            asked,
        } = self;
        drop(asked);
    }
}

impl Turn {
    /// What is asked.
    pub fn into_asked(self) -> TurnAsked
        ensures { result ≡ self.asked }
    {
        let Turn {
            actor: _,
            side: _,
            asked,
        } = self;
        asked
    }

    /// Whether the session is lost in the turn, in a call or between calls.
    pub fn is_lost(&self) -> bool
        ensures { result ≡ is_lost_in self.now.side self.now.asked }
    {
        match (self.side, self.asked.view()) {
            (None, AskedView::All(Asked::Cut)) | (Some(_), _) => true,
            (None, _) => false,
        }
    }
}

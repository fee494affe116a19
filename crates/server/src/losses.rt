//! Losses of sessions.

ghost use Rattle.std.specs.Prelude.{◌≡◌, ◌≢◌, Some, option_map, IfOk, IsOk, OnOk, OnErr};
ghost use Rattle.base_script.specs.declared.actor.Side.TheVariants.{After};
ghost use Rattle.server_model.specs.Conditions.{MayLose};
ghost use Rattle.server_model.specs.PlainServer.{given_at, number_drawn, serves, state_left};
ghost use Rattle.server_storage.specs.Storage.{committed, written};
ghost use Rattle.server.specs.DrawnAnswers.{drawn_of};
ghost use Rattle.server.specs.KnownBlockers.{AreBlocked};
ghost use Rattle.server.specs.Parts.{before_loss, state_of, GoTogether, HaveWritten};

use crate::calls::{call, poll};
use crate::commits::lose;
use crate::drawn_answers::DrawnAnswer;
use crate::known_blockers::KnownBlockers;
use base_script::Side;
use server_model::Asked;
use server_sessions::live_sessions::Sessions;
use server_storage::Storage;
use std::alloc::AllocError;

/// What is done before the session is lost, and the answer that nobody hears.
fn serve_before(
    storage: &mut Storage,
    all_sessions: &mut Sessions,
    known: &mut KnownBlockers,
    session: u32,
    side: Option<Side>,
    asked: &Asked,
) -> Result<Option<DrawnAnswer>, AllocError>
    requires together { GoTogether (committed storage.old) (written storage.old) all_sessions.old }
    requires blocked { AreBlocked (state_of (committed storage.old) all_sessions.old) known.old }
    requires may { MayLose (state_of (committed storage.old) all_sessions.old) session side asked.now }
    ensures answer { IfOk result (λ missed. option_map (λ one. one.answer) missed ≡ given_at side asked.now (serves (state_of (committed storage.old) all_sessions.old) session asked.now).answer) }
    ensures drawn { IfOk result (λ missed. drawn_of missed ≡ number_drawn side (state_of (committed storage.old) all_sessions.old) session asked.now) }
    ensures ok { OnOk result (state_of (committed storage.new) all_sessions.new ≡ before_loss side (state_of (committed storage.old) all_sessions.old) session asked.now) }
    ensures err { OnErr result (state_of (committed storage.new) all_sessions.new ≡ state_of (committed storage.old) all_sessions.old) }
    ensures have { HaveWritten (written storage.new) all_sessions.new }
    ensures free { side ≢ Some After → IsOk result }
{
    match (side, asked) {
        (Some(Side::After), Asked::Call(request)) => {
            Ok(Some(call(storage, all_sessions, known, session, request)?))
        }
        (Some(Side::After), Asked::Poll) => Ok(Some(poll(storage, all_sessions, known, session)?)),
        _ => Ok(None),
    }
}

/// The session is lost, before or after what it asks is done, or between calls.
pub fn lose_session(
    storage: &mut Storage,
    all_sessions: &mut Sessions,
    known: &mut KnownBlockers,
    session: u32,
    side: Option<Side>,
    asked: &Asked,
) -> Result<Option<DrawnAnswer>, AllocError>
    requires together { GoTogether (committed storage.old) (written storage.old) all_sessions.old }
    requires blocked { AreBlocked (state_of (committed storage.old) all_sessions.old) known.old }
    requires may { MayLose (state_of (committed storage.old) all_sessions.old) session side asked.now }
    ensures answer { IfOk result (λ missed. option_map (λ one. one.answer) missed ≡ given_at side asked.now (serves (state_of (committed storage.old) all_sessions.old) session asked.now).answer) }
    ensures drawn { IfOk result (λ missed. drawn_of missed ≡ number_drawn side (state_of (committed storage.old) all_sessions.old) session asked.now) }
    ensures ok { OnOk result (state_of (committed storage.new) all_sessions.new ≡ state_left side (state_of (committed storage.old) all_sessions.old) session asked.now) }
    ensures err { OnErr result (state_of (committed storage.new) all_sessions.new ≡ state_of (committed storage.old) all_sessions.old) }
    ensures have { HaveWritten (written storage.new) all_sessions.new }
    ensures free { side ≢ Some After → IsOk result }
{
    let missed = serve_before(storage, all_sessions, known, session, side, asked)?;
    lose(storage, all_sessions, session);
    Ok(missed)
}

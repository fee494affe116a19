//! The live sessions of the actors, by the actors' fixed order.

ghost use Rattle.std.specs.Prelude.{◌≡◌, map, IfOk};
ghost use Rattle.tool_program.specs.JournalWords.Sessions.{session_left};
ghost use Rattle.run_finish.specs.Sessions.{live_in, first_actor, session_of, session_after};

use base_script::Actor;
use run_actors::{ActorState, same_actor};
use server_model::{Answer, Asked, AskedView, Entry};
use std::alloc::{AllocError, Global};

/// An actor, and its live session where it has one.
#[derive(Clone, Copy)]
pub struct LiveSession {
    /// Whose it is.
    pub actor: Actor,
    /// Its number.
    pub session: Option<u32>,
}

/// The live sessions that are kept of the actors.
pub fn sessions_of(
    alloc: Global,
    actor_states: &[ActorState],
) -> Result<Vec<LiveSession>, AllocError>
    ensures { IfOk result (λ sessions. sessions.items ≡ map live_in actor_states.now) }
{
    let mut sessions = Vec::with_capacity(alloc, actor_states.len())?;
    for actor_state in actor_states {
        sessions.push(LiveSession {
            actor: actor_state.actor,
            session: actor_state.session,
        })?;
    }
    Ok(sessions)
}

/// The first actor that has a session.
pub fn first_actor(sessions: &[LiveSession]) -> Option<Actor>
    ensures { result ≡ first_actor sessions.now }
{
    match sessions.iter().find(|one| one.session.is_some()) {
        Some(one) => Some(one.actor),
        None => None,
    }
}

/// The session of an actor.
#[tactic(auto, unfolding(crate::specs::Sessions::session_of))]
pub fn session_of(sessions: &[LiveSession], actor: Actor) -> Option<u32>
    ensures { result ≡ session_of sessions.now actor }
{
    for one in sessions {
        if same_actor(one.actor, actor) {
            return one.session;
        }
    }
    None
}

/// The session that a turn leaves its actor.
fn session_left(entry: &Entry) -> Option<u32>
    ensures { result ≡ session_left entry.now.asked entry.now.answer entry.now.session }
{
    match (entry.asked.view(), &entry.answer) {
        (AskedView::All(Asked::Command(_)), _) | (_, Answer::Lost) => None,
        _ => Some(entry.session),
    }
}

fn session_after(one: &mut LiveSession, entry: &Entry)
    ensures { one.new ≡ session_after entry.now one.old }
{
    if same_actor(entry.actor, one.actor) {
        one.session = session_left(entry);
    }
}

/// The sessions after a turn.
pub fn keep_sessions(sessions: &mut Vec<LiveSession>, entry: &Entry)
    ensures { sessions.new.items ≡ map (session_after entry.now) sessions.old.items }
{
    for one in sessions.iter_mut() {
        session_after(one, entry);
    }
}

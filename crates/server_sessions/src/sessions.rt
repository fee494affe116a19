//! What a call changes of what is kept of its session.

ghost use Rattle.std.specs.Prelude.{◌≡◌, ◌==◌, ◌++◌, [], ◌∷◌, true, false, not, filter, map, OnOk, OnErr};
ghost use Rattle.server_sessions.specs.LiveSessions.KeptSessions.{grant_of, kept_at_rest, kept_counting, kept_holding, kept_locking, kept_unlocking, new_kept, with_kept};

use crate::events_size::EventsSize;
use crate::grant::grants_of;
use crate::live_session::LiveSession;
use crate::lookup::place_of;
use base_values::Names;
use server_locks::metadata_locks::MetaLocks;
use std::alloc::{AllocError, Global};

/// One session more; all is as before where there is no memory.
pub fn connect(
    alloc: Global,
    sessions: &mut Vec<LiveSession>,
    number: u32,
    is_tool: bool,
) -> Result<(), AllocError>
    ensures ok { OnOk result (sessions.new.items ≡ sessions.old.items ++ new_kept number is_tool ∷ []) }
    ensures err { OnErr result (sessions.new.items ≡ sessions.old.items) }
{
    sessions.push(LiveSession::new(alloc, number, is_tool))?;
    Ok(())
}

/// The session is gone, with all that it holds.
pub fn disconnect(sessions: &mut Vec<LiveSession>, number: u32)
    ensures { sessions.new.items ≡ filter (λ session. not (session.number == number)) sessions.old.items }
{
    sessions.retain(|session| !session.has_number(number));
}

/// The session's transaction goes on with these names, which the table has of it shared, and these events; all is as before
/// where there is no memory.
pub fn hold(
    alloc: Global,
    sessions: &mut Vec<LiveSession>,
    table: &MetaLocks,
    number: u32,
    names: &Names,
    events: &EventsSize,
) -> Result<(), AllocError>
    ensures ok { OnOk result (sessions.new.items ≡ with_kept number (kept_holding (map (grant_of table.now.held number false) names.now) events.now) sessions.old.items) }
    ensures err { OnErr result (sessions.new.items ≡ sessions.old.items) }
{
    let grants = grants_of(alloc, table, number, names.as_slice(), false)?;
    match place_of(sessions.as_slice(), number) {
        Some(place) => sessions[place].grow(alloc, grants, events),
        None => Ok(()),
    }
}

/// The session's transaction is over: its shared names are free.
pub fn rest(alloc: Global, sessions: &mut Vec<LiveSession>, number: u32)
    ensures { sessions.new.items ≡ with_kept number kept_at_rest sessions.old.items }
{
    if let Some(place) = place_of(sessions.as_slice(), number) {
        sessions[place].rest(alloc);
    }
}

/// The session holds these names too, which the table has of it exclusively; all is as before where there is no memory.
pub fn lock_tables(
    alloc: Global,
    sessions: &mut Vec<LiveSession>,
    table: &MetaLocks,
    number: u32,
    names: &Names,
) -> Result<(), AllocError>
    ensures ok { OnOk result (sessions.new.items ≡ with_kept number (kept_locking (map (grant_of table.now.held number true) names.now)) sessions.old.items) }
    ensures err { OnErr result (sessions.new.items ≡ sessions.old.items) }
{
    let grants = grants_of(alloc, table, number, names.as_slice(), true)?;
    match place_of(sessions.as_slice(), number) {
        Some(place) => sessions[place].lock_tables(grants),
        None => Ok(()),
    }
}

/// The session holds no name exclusively from now on.
pub fn unlock_tables(sessions: &mut Vec<LiveSession>, number: u32)
    ensures { sessions.new.items ≡ with_kept number kept_unlocking sessions.old.items }
{
    if let Some(place) = place_of(sessions.as_slice(), number) {
        sessions[place].unlock_tables();
    }
}

/// The session's request was polled so often.
pub fn count_polls(sessions: &mut Vec<LiveSession>, number: u32, polls: u32)
    ensures { sessions.new.items ≡ with_kept number (kept_counting polls) sessions.old.items }
{
    if let Some(place) = place_of(sessions.as_slice(), number) {
        sessions[place].count_polls(polls);
    }
}

//! A live session by its number.

ghost use Rattle.std.specs.Prelude.{◌≡◌, ◌==◌, [], false, is_some, option_copied, position, unwrap_or};
ghost use Rattle.std.specs.Option.{option_map};
ghost use Rattle.server_log.specs.EventCosts.Costs.{bytes_of};
ghost use Rattle.server_sessions.specs.LiveSessions.KeptSessions.{kept_of};

use crate::live_session::LiveSession;

/// The place of the session of this number.
pub fn place_of(sessions: &[LiveSession], number: u32) -> Option<usize>
    ensures { result ≡ position (λ session. session.number == number) sessions.now }
{
    sessions
        .iter()
        .position(|session| session.has_number(number))
}

/// The session of this number.
fn session_of(sessions: &[LiveSession], number: u32) -> Option<&LiveSession>
    ensures { option_copied result ≡ kept_of number sessions.now }
{
    sessions.iter().find(|session| session.has_number(number))
}

/// Whether the session is live.
pub fn is_live(sessions: &[LiveSession], number: u32) -> bool
    ensures { result ≡ is_some (kept_of number sessions.now) }
{
    session_of(sessions, number).is_some()
}

/// Whether the session is in a transaction.
pub fn is_in_transaction(sessions: &[LiveSession], number: u32) -> bool
    ensures { result ≡ unwrap_or (option_map (λ session. session.in_transaction) (kept_of number sessions.now)) false }
{
    match session_of(sessions, number) {
        Some(session) => session.is_in_transaction(),
        None => false,
    }
}

/// Whether the session is the tool's.
pub fn is_of_tool(sessions: &[LiveSession], number: u32) -> bool
    ensures { result ≡ unwrap_or (option_map (λ session. session.is_tool) (kept_of number sessions.now)) false }
{
    match session_of(sessions, number) {
        Some(session) => session.is_tool(),
        None => false,
    }
}

/// How often the session's waiting request was polled.
pub fn polls_of(sessions: &[LiveSession], number: u32) -> u32
    ensures { result ≡ unwrap_or (option_map (λ session. session.polls) (kept_of number sessions.now)) 0 }
{
    match session_of(sessions, number) {
        Some(session) => session.polls(),
        None => 0,
    }
}

/// How many bytes what the session's transaction wrote takes in the log.
pub fn bytes_written(sessions: &[LiveSession], number: u32) -> u64
    ensures { result ≡ bytes_of (unwrap_or (option_map (λ session. session.writes) (kept_of number sessions.now)) []) }
{
    match session_of(sessions, number) {
        Some(session) => session.bytes_written(),
        None => 0,
    }
}

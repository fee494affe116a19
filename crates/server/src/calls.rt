//! Calls and polls: a request is prepared; it waits where somebody blocks a lock that it needs, else it is executed.

ghost use Rattle.std.specs.Prelude.{◌≡◌, true, Some, None, IfOk, IsOk, OnOk, OnErr};
ghost use Rattle.server_model.specs.Conditions.{MayCall, MayPoll, is_free, is_freely_polled};
ghost use Rattle.server_model.specs.Counting.{counted, drawn_by};
ghost use Rattle.server_model.specs.declared.entry.Asked.TheVariants.{Call, Poll};
ghost use Rattle.server_model.specs.Drawing.{filled};
ghost use Rattle.server_model.specs.PlainServer.{calls, done, is_over, number_drawn, polled_over, polls, recounted, state_left, without_waiting};
ghost use Rattle.server_storage.specs.Storage.{committed, written};
ghost use Rattle.server.specs.FilledRequests.{IsFilled};
ghost use Rattle.server.specs.KnownBlockers.{AreBlocked};
ghost use Rattle.server.specs.Parts.{state_of, GoTogether, HaveWritten, MayDo};

use crate::commits::{commit, roll_back};
use crate::counters::counter_move;
use crate::drawn_answers::{DrawnAnswer, undrawn};
use crate::filled_requests::{Filling, fill};
use crate::known_blockers::{KnownBlockers, is_answered_look};
use crate::operation::do_request;
use base_values::Duplicate;
use server_model::{Answer, Request};
use server_sessions::live_sessions::Sessions;
use server_storage::Storage;
use server_transaction::Prepared;
use std::alloc::AllocError;

/// The request is done, filled with the number that it draws, and counters move.
fn do_filled(
    storage: &mut Storage,
    all_sessions: &mut Sessions,
    session: u32,
    request: &Request,
    filling: &Filling,
    prepared: Prepared,
) -> Result<DrawnAnswer, AllocError>
    requires together { GoTogether (committed storage.old) (written storage.old) all_sessions.old }
    requires filled { IsFilled (state_of (committed storage.old) all_sessions.old) session request.now filling.now }
    requires may { MayDo (state_of (committed storage.old) all_sessions.old) session (filled (state_of (committed storage.old) all_sessions.old) session request.now) prepared }
    ensures answer { IfOk result (λ one. one.answer ≡ (done (state_of (committed storage.old) all_sessions.old) session request.now).answer) }
    ensures drawn { IfOk result (λ one. one.drawn ≡ drawn_by (state_of (committed storage.old) all_sessions.old) session (Some request.now) one.answer) }
    ensures ok { IfOk result (λ one. state_of (committed storage.new) all_sessions.new ≡ recounted (counted (state_of (committed storage.old) all_sessions.old) session (Some request.now) one.answer) (done (state_of (committed storage.old) all_sessions.old) session request.now).after) }
    ensures err { OnErr result (state_of (committed storage.new) all_sessions.new ≡ state_of (committed storage.old) all_sessions.old) }
    ensures have { HaveWritten (written storage.new) all_sessions.new }
{
    let counter_move = counter_move(storage, all_sessions, session, request, filling.offer)?;
    let full = filling.request(request);
    let answer = do_request(storage, all_sessions, session, full, prepared)?;
    let drawn = all_sessions.move_counters(counter_move, &answer);
    Ok(DrawnAnswer { answer, drawn })
}

/// The request is done where nobody blocks it, else it waits.
fn call_or_wait(
    storage: &mut Storage,
    all_sessions: &mut Sessions,
    session: u32,
    request: &Request,
) -> Result<DrawnAnswer, AllocError>
    requires together { GoTogether (committed storage.old) (written storage.old) all_sessions.old }
    requires may { MayCall (state_of (committed storage.old) all_sessions.old) session request.now }
    ensures answer { IfOk result (λ one. one.answer ≡ (calls (state_of (committed storage.old) all_sessions.old) session request.now).answer) }
    ensures drawn { IfOk result (λ one. one.drawn ≡ number_drawn None (state_of (committed storage.old) all_sessions.old) session (Call request.now)) }
    ensures ok { OnOk result (state_of (committed storage.new) all_sessions.new ≡ state_left None (state_of (committed storage.old) all_sessions.old) session (Call request.now)) }
    ensures err { OnErr result (state_of (committed storage.new) all_sessions.new ≡ state_of (committed storage.old) all_sessions.old) }
    ensures have { HaveWritten (written storage.new) all_sessions.new }
{
    let filling = fill(storage, all_sessions, session, request)?;
    let full = filling.request(request);
    let prepared = storage.prepare(session, full)?;
    match all_sessions.blocker(session, full, prepared.locks.as_slice()) {
        Some(by) => {
            all_sessions.wait(session, request)?;
            Ok(undrawn(Answer::Waits { by }))
        }
        None => do_filled(storage, all_sessions, session, request, &filling, prepared),
    }
}

/// A call of a session. COMMIT, ROLLBACK and UNLOCK TABLES need no lock, and take no memory.
fn serve_call(
    storage: &mut Storage,
    all_sessions: &mut Sessions,
    session: u32,
    request: &Request,
) -> Result<DrawnAnswer, AllocError>
    requires together { GoTogether (committed storage.old) (written storage.old) all_sessions.old }
    requires may { MayCall (state_of (committed storage.old) all_sessions.old) session request.now }
    ensures answer { IfOk result (λ one. one.answer ≡ (calls (state_of (committed storage.old) all_sessions.old) session request.now).answer) }
    ensures drawn { IfOk result (λ one. one.drawn ≡ number_drawn None (state_of (committed storage.old) all_sessions.old) session (Call request.now)) }
    ensures ok { OnOk result (state_of (committed storage.new) all_sessions.new ≡ state_left None (state_of (committed storage.old) all_sessions.old) session (Call request.now)) }
    ensures err { OnErr result (state_of (committed storage.new) all_sessions.new ≡ state_of (committed storage.old) all_sessions.old) }
    ensures have { HaveWritten (written storage.new) all_sessions.new }
    ensures free { is_free request.now ≡ true → IsOk result }
{
    match request {
        Request::Commit => {
            commit(storage, all_sessions, session);
            Ok(undrawn(Answer::Ok(0)))
        }
        Request::Rollback => {
            roll_back(storage, all_sessions, session);
            Ok(undrawn(Answer::Ok(0)))
        }
        Request::Unlock => {
            all_sessions.unlock(session);
            Ok(undrawn(Answer::Ok(0)))
        }
        _ => call_or_wait(storage, all_sessions, session, request),
    }
}

/// A call of a session. What is known of requests that wait is forgotten, unless nothing changed.
pub fn call(
    storage: &mut Storage,
    all_sessions: &mut Sessions,
    known: &mut KnownBlockers,
    session: u32,
    request: &Request,
) -> Result<DrawnAnswer, AllocError>
    requires together { GoTogether (committed storage.old) (written storage.old) all_sessions.old }
    requires blocked { AreBlocked (state_of (committed storage.old) all_sessions.old) known.old }
    requires may { MayCall (state_of (committed storage.old) all_sessions.old) session request.now }
    ensures answer { IfOk result (λ one. one.answer ≡ (calls (state_of (committed storage.old) all_sessions.old) session request.now).answer) }
    ensures drawn { IfOk result (λ one. one.drawn ≡ number_drawn None (state_of (committed storage.old) all_sessions.old) session (Call request.now)) }
    ensures ok { OnOk result (state_of (committed storage.new) all_sessions.new ≡ state_left None (state_of (committed storage.old) all_sessions.old) session (Call request.now)) }
    ensures err { OnErr result (state_of (committed storage.new) all_sessions.new ≡ state_of (committed storage.old) all_sessions.old) }
    ensures have { HaveWritten (written storage.new) all_sessions.new }
    ensures blocked { AreBlocked (state_of (committed storage.new) all_sessions.new) known.new }
    ensures free { is_free request.now ≡ true → IsOk result }
{
    let served = serve_call(storage, all_sessions, session, request)?;
    if is_answered_look(request, &served.answer) {
        return Ok(served);
    }
    known.forget();
    Ok(served)
}

/// The session's request was polled, and stays blocked: it waits on, or its wait times out and its transaction is rolled back.
fn stay_blocked(
    storage: &mut Storage,
    all_sessions: &mut Sessions,
    known: &mut KnownBlockers,
    session: u32,
    by: u32,
) -> Answer
    requires have { HaveWritten (written storage.old) all_sessions.old }
    requires blocked { AreBlocked (state_of (committed storage.old) all_sessions.old) known.old }
    ensures answer { result ≡ (polled_over (is_over all_sessions.old session) by (state_of (committed storage.old) all_sessions.old) session).answer }
    ensures after { state_of (committed storage.new) all_sessions.new ≡ (polled_over (is_over all_sessions.old session) by (state_of (committed storage.old) all_sessions.old) session).after }
    ensures have { HaveWritten (written storage.new) all_sessions.new }
    ensures blocked { AreBlocked (state_of (committed storage.new) all_sessions.new) known.new }
{
    match all_sessions.stay_blocked(session, by) {
        Answer::TimedOut { waited } => {
            known.forget();
            storage.roll_back(session);
            Answer::TimedOut { waited }
        }
        answer => answer,
    }
}

/// The session's request, which waited, is done, and waits no more.
fn do_waiting(
    storage: &mut Storage,
    all_sessions: &mut Sessions,
    session: u32,
    request: &Request,
    filling: &Filling,
    prepared: Prepared,
) -> Result<DrawnAnswer, AllocError>
    requires together { GoTogether (committed storage.old) (written storage.old) all_sessions.old }
    requires filled { IsFilled (state_of (committed storage.old) all_sessions.old) session request.now filling.now }
    requires may { MayDo (state_of (committed storage.old) all_sessions.old) session (filled (state_of (committed storage.old) all_sessions.old) session request.now) prepared }
    ensures answer { IfOk result (λ one. one.answer ≡ (done (state_of (committed storage.old) all_sessions.old) session request.now).answer) }
    ensures drawn { IfOk result (λ one. one.drawn ≡ drawn_by (state_of (committed storage.old) all_sessions.old) session (Some request.now) one.answer) }
    ensures ok { IfOk result (λ one. state_of (committed storage.new) all_sessions.new ≡ without_waiting session (recounted (counted (state_of (committed storage.old) all_sessions.old) session (Some request.now) one.answer) (done (state_of (committed storage.old) all_sessions.old) session request.now).after)) }
    ensures err { OnErr result (state_of (committed storage.new) all_sessions.new ≡ state_of (committed storage.old) all_sessions.old) }
    ensures have { HaveWritten (written storage.new) all_sessions.new }
{
    let served = do_filled(storage, all_sessions, session, request, filling, prepared)?;
    all_sessions.end_wait(session);
    Ok(served)
}

/// A poll of a session, of whose request nothing is known.
fn poll_unknown(
    storage: &mut Storage,
    all_sessions: &mut Sessions,
    known: &mut KnownBlockers,
    session: u32,
) -> Result<DrawnAnswer, AllocError>
    requires together { GoTogether (committed storage.old) (written storage.old) all_sessions.old }
    requires blocked { AreBlocked (state_of (committed storage.old) all_sessions.old) known.old }
    requires may { MayPoll (state_of (committed storage.old) all_sessions.old) session }
    ensures answer { IfOk result (λ one. one.answer ≡ (polls (state_of (committed storage.old) all_sessions.old) session).answer) }
    ensures drawn { IfOk result (λ one. one.drawn ≡ number_drawn None (state_of (committed storage.old) all_sessions.old) session Poll) }
    ensures ok { OnOk result (state_of (committed storage.new) all_sessions.new ≡ state_left None (state_of (committed storage.old) all_sessions.old) session Poll) }
    ensures err { OnErr result (state_of (committed storage.new) all_sessions.new ≡ state_of (committed storage.old) all_sessions.old) }
    ensures have { HaveWritten (written storage.new) all_sessions.new }
    ensures blocked { AreBlocked (state_of (committed storage.new) all_sessions.new) known.new }
    ensures free { is_freely_polled (state_of (committed storage.old) all_sessions.old) session ≡ true → IsOk result }
{
    let Some(waiting) = all_sessions.waiting(session) else {
        return Ok(undrawn(Answer::Ok(0)));
    };
    let filling = fill(storage, all_sessions, session, &waiting.request)?;
    let full = filling.request(&waiting.request);
    let prepared = storage.prepare(session, full)?;
    match all_sessions.blocker(session, full, prepared.locks.as_slice()) {
        Some(by) => {
            // Where there is no memory to keep it, the next poll looks again.
            let _ = known.note(session, by);
            Ok(undrawn(stay_blocked(storage, all_sessions, known, session, by)))
        }
        None => {
            let request = waiting.request.copy()?;
            known.forget();
            do_waiting(storage, all_sessions, session, &request, &filling, prepared)
        }
    }
}

/// A poll of a session: its request that waits is done where nobody blocks it by now. A poll of a request for exclusive
/// names that stays blocked takes no memory.
pub fn poll(
    storage: &mut Storage,
    all_sessions: &mut Sessions,
    known: &mut KnownBlockers,
    session: u32,
) -> Result<DrawnAnswer, AllocError>
    requires together { GoTogether (committed storage.old) (written storage.old) all_sessions.old }
    requires blocked { AreBlocked (state_of (committed storage.old) all_sessions.old) known.old }
    requires may { MayPoll (state_of (committed storage.old) all_sessions.old) session }
    ensures answer { IfOk result (λ one. one.answer ≡ (polls (state_of (committed storage.old) all_sessions.old) session).answer) }
    ensures drawn { IfOk result (λ one. one.drawn ≡ number_drawn None (state_of (committed storage.old) all_sessions.old) session Poll) }
    ensures ok { OnOk result (state_of (committed storage.new) all_sessions.new ≡ state_left None (state_of (committed storage.old) all_sessions.old) session Poll) }
    ensures err { OnErr result (state_of (committed storage.new) all_sessions.new ≡ state_of (committed storage.old) all_sessions.old) }
    ensures have { HaveWritten (written storage.new) all_sessions.new }
    ensures blocked { AreBlocked (state_of (committed storage.new) all_sessions.new) known.new }
    ensures free { is_freely_polled (state_of (committed storage.old) all_sessions.old) session ≡ true → IsOk result }
{
    match known.blocker(session) {
        Some(by) => Ok(undrawn(stay_blocked(storage, all_sessions, known, session, by))),
        None => poll_unknown(storage, all_sessions, known, session),
    }
}

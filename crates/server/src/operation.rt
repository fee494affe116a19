//! What a request does, once nobody blocks what it needs.

ghost use Rattle.std.specs.Prelude.{◌≡◌, Bool, true, IfOk, OnOk, OnErr};
ghost use Rattle.table_store.specs.Databases.{Database};
ghost use Rattle.server_model.specs.Conditions.{IsWellFormed};
ghost use Rattle.server_model.specs.Effects.{Rests, effect_within};
ghost use Rattle.server_model.specs.PlainServer.{did, does};
ghost use Rattle.server_model.specs.States.{is_in_transaction, session_of, view};
ghost use Rattle.server_storage.specs.Storage.{committed, written};
ghost use Rattle.server.specs.Parts.{is_look, state_of, GoTogether, HaveWritten, MayDo};

use crate::commits::{commit, roll_back};
use crate::counter_requests::{counter_set, counter_shown};
use crate::definitions::{create, drop_table, lock_tables, rename};
use crate::results::{begin, begin_span, copy_row, statement};
use base_values::mysql_errors::ER_TABLE_NOT_LOCKED;
use server_api::paged_answers::{end_of_chunk, ends, refuses, tables_shown};
use server_model::{Answer, Request};
use server_sessions::live_sessions::Sessions;
use server_storage::Storage;
use server_transaction::Prepared;
use server_transaction::row_copies::RowCopy;
use std::alloc::AllocError;

/// What is answered without a change: ends of keys, the log, and what exists or waits.
fn look(storage: &Storage, all_sessions: &Sessions, request: &Request) -> Result<Answer, AllocError>
    requires look { is_look request.now ≡ true }
    requires formed { IsWellFormed (committed storage.now) request.now }
    ensures { (busy : Bool) (seen : Database) → IfOk result (λ answer. effect_within busy seen (state_of (committed storage.now) all_sessions.now) request.now ≡ Rests answer) }
{
    let alloc = all_sessions.allocator();
    let tables = storage.tables();
    match request {
        Request::Ends(table) => ends(alloc, tables, table),
        Request::ChunkEnd {
            table,
            low,
            top,
            size,
        } => end_of_chunk(alloc, tables, table, low, top, *size),
        Request::LogEnd => Ok(Answer::At(all_sessions.log_end())),
        Request::ReadLog {
            position,
            limit,
            tables,
        } => all_sessions.read_log(*position, *limit, tables),
        Request::ShowTables => Ok(Answer::Tables(tables_shown(alloc, tables)?)),
        Request::ShowWaiting => Ok(Answer::Waiting(all_sessions.waits_shown()?)),
        Request::ShowCounter(table) => Ok(counter_shown(tables, all_sessions, table)),
        _ => unreachable!(),
    }
}

/// The request is done, where it is of tables that the session may use.
fn do_inside(
    storage: &mut Storage,
    all_sessions: &mut Sessions,
    session: u32,
    request: &Request,
    prepared: Prepared,
) -> Result<Answer, AllocError>
    requires together { GoTogether (committed storage.old) (written storage.old) all_sessions.old }
    requires may { MayDo (state_of (committed storage.old) all_sessions.old) session request.now prepared }
    ensures answer { IfOk result (λ answer. answer ≡ (does (effect_within (is_in_transaction (session_of session all_sessions.old.sessions)) (view session (state_of (committed storage.old) all_sessions.old)) (state_of (committed storage.old) all_sessions.old) request.now) (state_of (committed storage.old) all_sessions.old) session).answer) }
    ensures ok { OnOk result (state_of (committed storage.new) all_sessions.new ≡ (does (effect_within (is_in_transaction (session_of session all_sessions.old.sessions)) (view session (state_of (committed storage.old) all_sessions.old)) (state_of (committed storage.old) all_sessions.old) request.now) (state_of (committed storage.old) all_sessions.old) session).after) }
    ensures err { OnErr result (state_of (committed storage.new) all_sessions.new ≡ state_of (committed storage.old) all_sessions.old) }
    ensures have { HaveWritten (written storage.new) all_sessions.new }
{
    match request {
        Request::Begin => begin(storage, all_sessions, session),
        Request::Commit => {
            commit(storage, all_sessions, session);
            Ok(Answer::Ok(0))
        }
        Request::Rollback => {
            roll_back(storage, all_sessions, session);
            Ok(Answer::Ok(0))
        }
        Request::Do(executed) => {
            statement(storage, all_sessions, session, request, executed, prepared)
        }
        Request::BeginSpan { table, span, size } => {
            begin_span(
                storage,
                all_sessions,
                session,
                request,
                table,
                span,
                *size,
                prepared.locks,
            )
        }
        Request::CopyRow {
            from,
            into,
            map,
            key,
        } => {
            let copy = RowCopy {
                from,
                into,
                map,
                key,
            };
            copy_row(storage, all_sessions, session, request, &copy, prepared)
        }
        Request::LockTables(names) => lock_tables(storage, all_sessions, session, names),
        Request::Unlock => {
            all_sessions.unlock(session);
            Ok(Answer::Ok(0))
        }
        Request::Create(schema) => create(storage, schema),
        Request::Drop(name) => Ok(drop_table(storage, name)),
        Request::Rename(pairs) => rename(storage, pairs),
        Request::SetCounter { table, .. } => Ok(counter_set(storage.tables(), table)),
        _ => look(storage, all_sessions, request),
    }
}

/// The request is done; it is refused with `ER_TABLE_NOT_LOCKED` where the session holds LOCK TABLES and it names a table
/// that isn't locked.
pub fn do_request(
    storage: &mut Storage,
    all_sessions: &mut Sessions,
    session: u32,
    request: &Request,
    prepared: Prepared,
) -> Result<Answer, AllocError>
    requires together { GoTogether (committed storage.old) (written storage.old) all_sessions.old }
    requires may { MayDo (state_of (committed storage.old) all_sessions.old) session request.now prepared }
    ensures answer { IfOk result (λ answer. answer ≡ (did (state_of (committed storage.old) all_sessions.old) session request.now).answer) }
    ensures ok { OnOk result (state_of (committed storage.new) all_sessions.new ≡ (did (state_of (committed storage.old) all_sessions.old) session request.now).after) }
    ensures err { OnErr result (state_of (committed storage.new) all_sessions.new ≡ state_of (committed storage.old) all_sessions.old) }
    ensures have { HaveWritten (written storage.new) all_sessions.new }
{
    if all_sessions.is_outside(session, request) {
        Ok(refuses(ER_TABLE_NOT_LOCKED))
    } else {
        do_inside(storage, all_sessions, session, request, prepared)
    }
}

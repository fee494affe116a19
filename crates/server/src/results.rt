//! Requests of a transaction: statements, copies of rows, and its beginning.

ghost use Rattle.std.specs.Prelude.{◌≡◌, [], true, IfOk, OnOk, OnErr};
ghost use Rattle.table_store.specs.Databases.{find_table};
ghost use Rattle.server_model.specs.declared.request.Request.TheVariants as requests;
ghost use Rattle.server_model.specs.Answers.{ok};
ghost use Rattle.server_model.specs.Effects.{begins, nothing_needed, result_effect};
ghost use Rattle.server_model.specs.Operations.{copy_operation, operation_result, statement_result};
ghost use Rattle.server_model.specs.PlainServer.{does, goes_on};
ghost use Rattle.server_model.specs.States.{is_in_transaction, is_live, session_of, view};
ghost use Rattle.server_storage.specs.Storage.{committed, written};
ghost use Rattle.server.specs.Parts.{needed, state_of, GoTogether, HaveWritten, MayDo};

use crate::records::keep;
use base_script::Statement;
use base_values::mysql_errors::ER_NO_SUCH_TABLE;
use base_values::{Name, Sequence, Span};
use server_api::paged_answers::{keys_of_span, refuses};
use server_locks::row_locks::LockSet;
use server_model::{Answer, Request};
use server_sessions::live_sessions::Sessions;
use server_storage::Storage;
use server_transaction::row_copies::RowCopy;
use server_transaction::{Prepared, table_of};
use std::alloc::AllocError;

/// One statement.
pub fn statement(
    storage: &mut Storage,
    all_sessions: &mut Sessions,
    session: u32,
    request: &Request,
    statement: &Statement,
    prepared: Prepared,
) -> Result<Answer, AllocError>
    requires together { GoTogether (committed storage.old) (written storage.old) all_sessions.old }
    requires may { MayDo (state_of (committed storage.old) all_sessions.old) session request.now prepared }
    requires request { request.now ≡ requests.Do statement.now }
    ensures answer { IfOk result (λ answer. answer ≡ (statement_result (view session (state_of (committed storage.old) all_sessions.old)) statement.now).answer) }
    ensures ok { OnOk result (state_of (committed storage.new) all_sessions.new ≡ (does (result_effect (is_in_transaction (session_of session all_sessions.old.sessions)) (needed request.now prepared.locks) (statement_result (view session (state_of (committed storage.old) all_sessions.old)) statement.now)) (state_of (committed storage.old) all_sessions.old) session).after) }
    ensures err { OnErr result (state_of (committed storage.new) all_sessions.new ≡ state_of (committed storage.old) all_sessions.old) }
    ensures have { HaveWritten (written storage.new) all_sessions.new }
{
    let Prepared { work, locks } = prepared;
    let executed = storage.execute(session, table_of(statement), work)?;
    keep(storage, all_sessions, session, request, locks, executed)
}

/// INSERT IGNORE of one converted row.
pub fn copy_row(
    storage: &mut Storage,
    all_sessions: &mut Sessions,
    session: u32,
    request: &Request,
    copy: &RowCopy<'_>,
    prepared: Prepared,
) -> Result<Answer, AllocError>
    requires together { GoTogether (committed storage.old) (written storage.old) all_sessions.old }
    requires may { MayDo (state_of (committed storage.old) all_sessions.old) session request.now prepared }
    requires request { request.now ≡ requests.CopyRow copy.now.from.now copy.now.into.now copy.now.map.now copy.now.key.now }
    ensures answer { IfOk result (λ answer. answer ≡ (operation_result (view session (state_of (committed storage.old) all_sessions.old)) (copy_operation (view session (state_of (committed storage.old) all_sessions.old)) copy.now.from.now copy.now.into.now copy.now.map.now copy.now.key.now)).answer) }
    ensures ok { OnOk result (state_of (committed storage.new) all_sessions.new ≡ (does (result_effect (is_in_transaction (session_of session all_sessions.old.sessions)) (needed request.now prepared.locks) (operation_result (view session (state_of (committed storage.old) all_sessions.old)) (copy_operation (view session (state_of (committed storage.old) all_sessions.old)) copy.now.from.now copy.now.into.now copy.now.map.now copy.now.key.now))) (state_of (committed storage.old) all_sessions.old) session).after) }
    ensures err { OnErr result (state_of (committed storage.new) all_sessions.new ≡ state_of (committed storage.old) all_sessions.old) }
    ensures have { HaveWritten (written storage.new) all_sessions.new }
{
    let Prepared { work, locks } = prepared;
    let executed = storage.execute(session, copy.into, work)?;
    keep(storage, all_sessions, session, request, locks, executed)
}

/// BEGIN.
pub fn begin(
    storage: &Storage,
    all_sessions: &mut Sessions,
    session: u32,
) -> Result<Answer, AllocError>
    requires live { is_live all_sessions.old session ≡ true }
    requires have { HaveWritten (written storage.now) all_sessions.old }
    ensures answer { IfOk result (λ answer. answer ≡ ok) }
    ensures ok { OnOk result (state_of (committed storage.now) all_sessions.new ≡ goes_on session nothing_needed [] (state_of (committed storage.now) all_sessions.old)) }
    ensures err { OnErr result (all_sessions.new ≡ all_sessions.old) }
    ensures have { HaveWritten (written storage.now) all_sessions.new }
{
    let none = Sequence::new(all_sessions.allocator());
    all_sessions.go_on(session, &Request::Begin, none, &[])?;
    Ok(Answer::Ok(0))
}

/// Begins a transaction with the share lock on a span, and gives its keys.
pub fn begin_span(
    storage: &Storage,
    all_sessions: &mut Sessions,
    session: u32,
    request: &Request,
    table: &Name,
    span: &Span,
    size: u32,
    locks: LockSet,
) -> Result<Answer, AllocError>
    requires live { is_live all_sessions.old session ≡ true }
    requires have { HaveWritten (written storage.now) all_sessions.old }
    ensures answer { IfOk result (λ answer. answer ≡ (does (begins (find_table table.now (committed storage.now)) span.now size (needed request.now locks)) (state_of (committed storage.now) all_sessions.old) session).answer) }
    ensures ok { OnOk result (state_of (committed storage.now) all_sessions.new ≡ (does (begins (find_table table.now (committed storage.now)) span.now size (needed request.now locks)) (state_of (committed storage.now) all_sessions.old) session).after) }
    ensures err { OnErr result (all_sessions.new ≡ all_sessions.old) }
    ensures have { HaveWritten (written storage.now) all_sessions.new }
{
    let alloc = all_sessions.allocator();
    match keys_of_span(alloc, storage.tables(), table, span, size)? {
        Some(answer) => {
            all_sessions.go_on(session, request, locks, &[])?;
            Ok(answer)
        }
        None => Ok(refuses(ER_NO_SUCH_TABLE)),
    }
}

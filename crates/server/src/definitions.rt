//! Requests that change which tables exist, and LOCK TABLES.

ghost use Rattle.std.specs.Prelude.{◌≡◌, ℕ, [], ◌∷◌, IfOk, OnOk, OnErr};
ghost use Rattle.table_store.specs.Databases.{has_table, rename_tables};
ghost use Rattle.server_model.specs.declared.request.Request.TheVariants as requests;
ghost use Rattle.server_model.specs.Conditions.{IsWellFormed};
ghost use Rattle.server_model.specs.Effects.{all_exist, created, defined, dropped, locks_if, renamed_or};
ghost use Rattle.server_model.specs.PlainServer.{does};
ghost use Rattle.server_model.specs.States.{State, pair_names};
ghost use Rattle.server_transaction.specs.FittingEvents.{NoneOf};
ghost use Rattle.server_storage.specs.Storage.{committed, written};
ghost use Rattle.server.specs.Parts.{state_of, HaveWritten};

use base_values::gho_schema::Schema;
use base_values::mysql_errors::{ER_BAD_TABLE_ERROR, ER_NO_SUCH_TABLE, ER_TABLE_EXISTS_ERROR};
use base_values::{Name, Names};
use server_api::paged_answers::{all_exist, refuses};
use server_model::Answer;
use server_sessions::live_sessions::Sessions;
use server_storage::Storage;
use std::alloc::AllocError;
use table_store::{Pairs, RenameFault};

/// LOCK TABLES .. WRITE.
pub fn lock_tables(
    storage: &Storage,
    all_sessions: &mut Sessions,
    session: u32,
    names: &Names,
) -> Result<Answer, AllocError>
    requires { HaveWritten (written storage.now) all_sessions.old }
    ensures answer { IfOk result (λ answer. answer ≡ (does (locks_if (all_exist names.now (committed storage.now)) names.now) (state_of (committed storage.now) all_sessions.old) session).answer) }
    ensures ok { OnOk result (state_of (committed storage.now) all_sessions.new ≡ (does (locks_if (all_exist names.now (committed storage.now)) names.now) (state_of (committed storage.now) all_sessions.old) session).after) }
    ensures err { OnErr result (all_sessions.new ≡ all_sessions.old) }
    ensures have { HaveWritten (written storage.now) all_sessions.new }
{
    if !all_exist(storage.tables(), names.as_slice()) {
        return Ok(refuses(ER_NO_SUCH_TABLE));
    }
    all_sessions.lock(session, names)?;
    Ok(Answer::Ok(0))
}

/// CREATE TABLE.
pub fn create(storage: &mut Storage, schema: &Schema) -> Result<Answer, AllocError>
    requires { IsWellFormed (committed storage.old) (requests.Create schema.now) }
    ensures answer { (all_sessions : State) (session : ℕ) → IfOk result (λ answer. answer ≡ (does (defined (created (has_table schema.now.name (committed storage.old)) schema.now (committed storage.old))) (state_of (committed storage.old) all_sessions) session).answer) }
    ensures ok { (all_sessions : State) (session : ℕ) → OnOk result (state_of (committed storage.new) all_sessions ≡ (does (defined (created (has_table schema.now.name (committed storage.old)) schema.now (committed storage.old))) (state_of (committed storage.old) all_sessions) session).after) }
    ensures err { OnErr result (committed storage.new ≡ committed storage.old) }
    ensures written { (session : ℕ) → written storage.new session ≡ written storage.old session }
{
    if storage.tables().stands(&schema.name) {
        return Ok(refuses(ER_TABLE_EXISTS_ERROR));
    }
    storage.create(schema)?;
    Ok(Answer::Ok(0))
}

/// DROP TABLE: MySQL's error 1051 where no table has the name.
pub fn drop_table(storage: &mut Storage, name: &Name) -> Answer
    requires { (session : ℕ) → NoneOf (name.now ∷ []) (written storage.old session) }
    ensures answer { (all_sessions : State) (session : ℕ) → result ≡ (does (defined (dropped (has_table name.now (committed storage.old)) name.now (committed storage.old))) (state_of (committed storage.old) all_sessions) session).answer }
    ensures after { (all_sessions : State) (session : ℕ) → state_of (committed storage.new) all_sessions ≡ (does (defined (dropped (has_table name.now (committed storage.old)) name.now (committed storage.old))) (state_of (committed storage.old) all_sessions) session).after }
    ensures written { (session : ℕ) → written storage.new session ≡ written storage.old session }
{
    if !storage.tables().stands(name) {
        return refuses(ER_BAD_TABLE_ERROR);
    }
    storage.drop_table(name);
    Answer::Ok(0)
}

/// RENAME TABLE, all pairs or none.
pub fn rename(storage: &mut Storage, pairs: &Pairs) -> Result<Answer, AllocError>
    requires { (session : ℕ) → NoneOf (pair_names pairs.now) (written storage.old session) }
    ensures answer { (all_sessions : State) (session : ℕ) → IfOk result (λ answer. answer ≡ (does (defined (renamed_or (rename_tables pairs.now (committed storage.old)))) (state_of (committed storage.old) all_sessions) session).answer) }
    ensures ok { (all_sessions : State) (session : ℕ) → OnOk result (state_of (committed storage.new) all_sessions ≡ (does (defined (renamed_or (rename_tables pairs.now (committed storage.old)))) (state_of (committed storage.old) all_sessions) session).after) }
    ensures err { OnErr result (committed storage.new ≡ committed storage.old) }
    ensures written { (session : ℕ) → written storage.new session ≡ written storage.old session }
{
    match storage.rename(pairs) {
        Ok(()) => Ok(Answer::Ok(0)),
        Err(RenameFault::Refused(reason)) => Ok(refuses(reason.number())),
        Err(RenameFault::Memory) => Err(AllocError),
    }
}

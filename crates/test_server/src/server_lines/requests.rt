//! Requests of sessions, where they may come.

ghost use Rattle.std.specs.Prelude.{◌≡◌, true, IfOk};
ghost use Rattle.base_values.specs.SchemaRules.Valid.{IsValid};
ghost use Rattle.server_model.specs.Conditions.{IsTableName};

use base_script::{ScriptWord, Statement};
use base_values::gho_schema::Schema;
use base_values::schema_rules::is_column_name;
use base_values::{Duplicate, Name, Names, Sequence};
use server_api::Serve;
use server_model::{Answer, Request};
use sql_create::read_schema;
use sql_grammar::{SchemaFault, text_words};
use sql_statement::{StatementFault, read_statement};
use std::alloc::{AllocError, Global};
use test_lines::{CallFault, unsigned_of};

/// The names of a list with blanks between them.
pub fn names_of(alloc: Global, text: &str) -> Result<Names, AllocError> {
    let mut names = Sequence::new(alloc);
    for name in text.split(' ') {
        names.push(Name::new(alloc, name)?)?;
    }
    Ok(names)
}

/// BEGIN.
fn begin<V: Serve>(server: &mut V, session: u32) -> Result<Option<Answer>, CallFault> {
    if !server.live(session)
        || server.waits(session)
        || server.in_transaction(session)
        || server.locked(session)
    {
        return Ok(None);
    }
    Ok(Some(server.call(session, &Request::Begin)?))
}

/// COMMIT.
fn commit<V: Serve>(server: &mut V, session: u32) -> Result<Option<Answer>, CallFault> {
    if !server.live(session) || server.waits(session) || !server.in_transaction(session) {
        return Ok(None);
    }
    Ok(Some(server.call(session, &Request::Commit)?))
}

/// ROLLBACK.
fn roll_back<V: Serve>(server: &mut V, session: u32) -> Result<Option<Answer>, CallFault> {
    if !server.live(session) || server.waits(session) || !server.in_transaction(session) {
        return Ok(None);
    }
    Ok(Some(server.call(session, &Request::Rollback)?))
}

/// The first events of these tables at the position or after it.
fn read_log<V: Serve>(
    server: &mut V,
    session: u32,
    position: u32,
    limit: u32,
    tables: Names,
) -> Result<Option<Answer>, CallFault> {
    if !server.live(session) || server.waits(session) || limit == 0 {
        return Ok(None);
    }
    let request = Request::ReadLog {
        position: u64::from(position),
        limit,
        tables,
    };
    Ok(Some(server.call(session, &request)?))
}

/// The first events of tables, as `0 2 t` asks: at the position 0 or after it, two at most.
fn look_at_log<V: Serve>(
    alloc: Global,
    server: &mut V,
    session: u32,
    text: &str,
) -> Result<Option<Answer>, CallFault> {
    let (position, rest) = text.split_once(' ').ok_or(CallFault::Unread)?;
    let (limit, tables) = rest.split_once(' ').ok_or(CallFault::Unread)?;
    let position = unsigned_of(position)?;
    let limit = unsigned_of(limit)?;
    read_log(server, session, position, limit, names_of(alloc, tables)?)
}

/// The statement of a text.
fn statement_of(alloc: Global, text: &str) -> Result<Statement, CallFault> {
    let words = text_words(alloc, text)?;
    match read_statement(alloc, words.words.as_slice()) {
        Ok(word) => match &word {
            ScriptWord::Do(statement) => Ok(statement.copy()?),
            ScriptWord::Begin | ScriptWord::Commit | ScriptWord::Rollback => Err(CallFault::Unread),
        },
        Err(StatementFault::Refused(_)) => Err(CallFault::Unread),
        Err(StatementFault::Memory) => Err(CallFault::Memory),
    }
}

/// A statement.
fn do_statement<V: Serve>(
    alloc: Global,
    server: &mut V,
    session: u32,
    text: &str,
) -> Result<Option<Answer>, CallFault> {
    let statement = statement_of(alloc, text)?;
    if !server.live(session) || server.waits(session) {
        return Ok(None);
    }
    Ok(Some(server.call(session, &Request::Do(statement))?))
}

/// What the session is answered to BEGIN, COMMIT, ROLLBACK, `log 0 2 t` or a statement; nothing where it may not ask for
/// that now.
pub fn ask<V: Serve>(
    alloc: Global,
    server: &mut V,
    session: u32,
    text: &str,
) -> Result<Option<Answer>, CallFault> {
    match text {
        "BEGIN" => begin(server, session),
        "COMMIT" => commit(server, session),
        "ROLLBACK" => roll_back(server, session),
        _ => match text.strip_prefix("log ") {
            Some(rest) => look_at_log(alloc, server, session, rest),
            None => do_statement(alloc, server, session, text),
        },
    }
}

/// Whether a table may have this name.
#[tactic(auto, unfolding(base_values::specs::SchemaRules::Limits::is_name_length))]
fn is_table_name(name: &Name) -> bool
    ensures { result ≡ true → IsTableName name.now }
{
    let text = name.as_str();
    1 <= text.len() && text.len() <= 255 && is_column_name(text)
}

/// The valid schema of a text of CREATE TABLE.
#[tactic(auto, using(proof_schemas::proofs::Stored::schemas_valid))]
fn schema_of(alloc: Global, text: &str) -> Result<Schema, CallFault>
    ensures { IfOk result IsValid }
{
    match read_schema(alloc, text, "", 2) {
        Ok(schema) => Ok(schema),
        Err(SchemaFault::Refused(_)) => Err(CallFault::Unread),
        Err(SchemaFault::Memory) => Err(CallFault::Memory),
    }
}

/// Makes the table of a text of CREATE TABLE, as the first session asks.
pub fn create<V: Serve>(alloc: Global, server: &mut V, text: &str) -> Result<(), CallFault> {
    let schema = schema_of(alloc, text)?;
    if !server.live(1) || server.waits(1) || !is_table_name(&schema.name) {
        return Err(CallFault::Unread);
    }
    let _answer = server.call(1, &Request::Create(schema))?;
    Ok(())
}

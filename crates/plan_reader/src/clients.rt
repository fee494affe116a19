//! The scripts of a plan's clients.

ghost use Rattle.std.specs.Prelude.{◌≡◌, nat_lt, length, map, IfOk};
ghost use Rattle.std.specs.List.{count_by};
ghost use Rattle.plan_reader.specs.Clients.{is_statement, is_equality, shows_rows, is_open, is_open_select, line_count, has_many_statements, few_statements, client_script, scripts_of, tool_names, clients_of};
ghost use Rattle.base_values.specs.Faults.{Answers};

use crate::fault::{PlanFault, PlanRefusal};
use crate::limits::{OPEN_SELECT_LIMIT, STATEMENT_LIMIT};
use base_script::{Condition, Script, ScriptLine, ScriptWord, Shown, Statement};
use base_values::{Duplicate, Name, Names, Sequence, because};
use plan_data::{MigratedTable, Scripts};
use plan_keys::KeyRefusal;
use sql_statement::read_script;
use std::alloc::{AllocError, Global};

#[tactic(auto, unfolding(crate::specs::Clients::is_statement))]
fn is_statement(word: &ScriptWord) -> bool
    ensures { result ≡ is_statement word.now }
{
    match word {
        ScriptWord::Do(_) => true,
        ScriptWord::Begin => false,
        ScriptWord::Commit => false,
        ScriptWord::Rollback => false,
    }
}

fn is_equality(condition: &Condition) -> bool
    ensures { result ≡ is_equality condition.now }
{
    match condition {
        Condition::All => false,
        Condition::Equal(_) => true,
        Condition::Range(_) => false,
    }
}

fn shows_rows(shown: &Shown) -> bool
    ensures { result ≡ shows_rows shown.now }
{
    match shown {
        Shown::All => true,
        Shown::Columns(_) => true,
        Shown::Count => false,
    }
}

/// Whether a statement is a SELECT that may show many rows.
fn is_open(statement: &Statement) -> bool
    ensures { result ≡ is_open statement.now }
{
    match statement {
        Statement::Select {
            shown,
            condition,
            ..
        } => shows_rows(shown) && !is_equality(condition),
        Statement::Insert { .. } => false,
        Statement::Replace { .. } => false,
        Statement::Delete { .. } => false,
        Statement::Update { .. } => false,
    }
}

#[tactic(auto, unfolding(crate::specs::Clients::is_open_select))]
fn is_open_select(word: &ScriptWord) -> bool
    ensures { result ≡ is_open_select word.now }
{
    match word {
        ScriptWord::Do(statement) => is_open(statement),
        ScriptWord::Begin => false,
        ScriptWord::Commit => false,
        ScriptWord::Rollback => false,
    }
}

fn statements_in(script: &[ScriptLine]) -> usize
    ensures { result ≡ count_by (λ line. is_statement line.word) script.now }
{
    let mut count: usize = 0;
    for line in script {
        if is_statement(&line.word) {
            count += 1;
        }
    }
    count
}

fn open_selects_in(script: &[ScriptLine]) -> usize
    ensures { result ≡ count_by (λ line. is_open_select line.word) script.now }
{
    let mut count: usize = 0;
    for line in script {
        if is_open_select(&line.word) {
            count += 1;
        }
    }
    count
}

/// Whether scripts have more statements together than `limit`.
fn have_more_statements(limit: usize, scripts: &[Script]) -> bool
    ensures { result ≡ nat_lt limit (line_count is_statement scripts.now) }
{
    let mut left = limit;
    for script in scripts {
        let statements = statements_in(script.as_slice());
        if left < statements {
            return true;
        }
        left -= statements;
    }
    false
}

/// Whether scripts have more SELECTs that may show many rows together than `limit`.
fn have_more_open_selects(limit: usize, scripts: &[Script]) -> bool
    ensures { result ≡ nat_lt limit (line_count is_open_select scripts.now) }
{
    let mut left = limit;
    for script in scripts {
        let selects = open_selects_in(script.as_slice());
        if left < selects {
            return true;
        }
        left -= selects;
    }
    false
}

fn few_statements(scripts: Scripts) -> Result<Scripts, PlanFault>
    ensures few { Answers (λ scripts. scripts) result (few_statements scripts) }
    ensures same { IfOk result (λ read. length read ≡ length scripts) }
{
    if have_more_statements(STATEMENT_LIMIT, scripts.as_slice())
        || have_more_open_selects(OPEN_SELECT_LIMIT, scripts.as_slice())
    {
        Err(PlanFault::Refused(PlanRefusal::Keys(KeyRefusal::TooMany)))
    } else {
        Ok(scripts)
    }
}

/// The script of the client of this number.
fn script_of(alloc: Global, tools: &[Name], client: u32, text: &str) -> Result<Script, PlanFault>
    ensures { Answers (λ script. script) result (client_script tools.now client text.now) }
{
    because(
        read_script(alloc, text, tools),
        |refusal| PlanRefusal::Script { client, refusal },
    )
}

fn scripts_of(alloc: Global, tools: &[Name], texts: &[&str]) -> Result<Scripts, PlanFault>
    ensures scripts { Answers (λ scripts. scripts) result (scripts_of tools.now (map (λ text. text.now) texts.now)) }
    ensures each { IfOk result (λ scripts. length scripts ≡ length texts.now) }
{
    let mut scripts = Sequence::new(alloc);
    let mut client: u32 = 1;
    for text in texts {
        let script = script_of(alloc, tools, client, text)?;
        scripts.push(script)?;
        client = client.saturating_add(1);
    }
    Ok(scripts)
}

/// The names of the tool's tables.
fn tool_names(alloc: Global, migrated: &MigratedTable) -> Result<Names, AllocError>
    ensures { IfOk result (λ names. names ≡ tool_names migrated.now) }
{
    let new = migrated.ghost_name().copy()?;
    let log = migrated.log_name().copy()?;
    let old = migrated.old_name().copy()?;
    Ok(Sequence::from_vec(vec![in alloc; new, log, old]?))
}

/// The scripts of the clients whose texts these are. No line names one of the tables of the tool that migrates the table
/// of this name.
#[tactic(auto, unfolding(crate::specs::Clients::clients_of))]
pub fn clients_of(
    alloc: Global,
    migrated: &MigratedTable,
    texts: &[&str],
) -> Result<Scripts, PlanFault>
    ensures clients { Answers (λ scripts. scripts) result (clients_of migrated.now (map (λ text. text.now) texts.now)) }
    ensures each { IfOk result (λ scripts. length scripts ≡ length texts.now) }
{
    let tools = tool_names(alloc, migrated)?;
    let scripts = scripts_of(alloc, tools.as_slice(), texts)?;
    few_statements(scripts)
}

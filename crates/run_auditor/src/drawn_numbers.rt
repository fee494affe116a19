//! Which statements draw a number for an AUTO_INCREMENT column.

ghost use Rattle.std.specs.Prelude.{◌≡◌, IfOk};
ghost use Rattle.run_audit.specs.Audits.{draws_in, first_draws, word_draws};
ghost use Rattle.server_model.specs.Operations.{table_of};
ghost use Rattle.table_store.specs.Databases.{database, find_table};

use base_script::{ScriptLine, ScriptWord, Statement};
use server_prepare::draws;
use server_transaction::table_of;
use std::alloc::{AllocError, Global};
use table_store::paged_tables::Tables;

/// Whether the statement draws a number in its table, where that is one of these.
fn statement_draws(
    alloc: Global,
    tables: &Tables,
    statement: &Statement,
) -> Result<bool, AllocError>
    ensures { IfOk result (λ draws. draws ≡ draws_in (find_table (table_of statement.now) (database tables.now)) statement.now) }
{
    match tables.find(table_of(statement)) {
        Some(table) => draws(alloc, table.schema(), statement),
        None => Ok(false),
    }
}

/// Whether a line of a script draws a number.
fn word_draws(alloc: Global, tables: &Tables, word: &ScriptWord) -> Result<bool, AllocError>
    ensures { IfOk result (λ draws. draws ≡ word_draws (database tables.now) word.now) }
{
    match word {
        ScriptWord::Do(statement) => statement_draws(alloc, tables, statement),
        ScriptWord::Begin | ScriptWord::Commit | ScriptWord::Rollback => Ok(false),
    }
}

/// Whether the first of these lines draws a number.
pub fn first_draws(alloc: Global, tables: &Tables, lines: &[ScriptLine]) -> Result<bool, AllocError>
    ensures { IfOk result (λ draws. draws ≡ first_draws (database tables.now) lines.now) }
{
    match lines.split_first() {
        Some((line, _)) => word_draws(alloc, tables, &line.word),
        None => Ok(false),
    }
}

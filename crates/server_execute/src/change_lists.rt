//! What a statement says: its answer, and the changes that it makes.

ghost use Rattle.std.specs.Prelude.{◌≡◌, map, IfOk};
ghost use Rattle.base_values.specs.declared.event.Change.TheVariants as changes;
ghost use Rattle.server_model.specs.StatementResults.{only};
ghost use Rattle.server_execute.specs.ReadyResult.{as_result};

use base_values::{Change, Rows, Sequence};
use server_model::Answer;
use std::alloc::{AllocError, Global};

/// Changes of the rows of one table, in order.
pub type Changes = Sequence<Change>;

/// What a statement says.
#[derive(Drop)]
pub struct ReadyResult {
    /// What its session is answered.
    pub answer: Answer,
    /// The changes of its table's rows.
    pub changes: Changes,
}

/// An answer that changes nothing.
pub fn only(alloc: Global, answer: Answer) -> ReadyResult
    ensures { as_result result ≡ only answer }
{
    ReadyResult {
        answer,
        changes: Sequence::new(alloc),
    }
}

/// Removals of rows.
pub fn deletes(alloc: Global, rows: Rows) -> Result<Changes, AllocError>
    ensures { IfOk result (λ all. all ≡ map changes.Delete rows) }
{
    let deletes = rows
        .into_vec()
        .into_iter()
        .map(|row| Change::Delete(row))
        .collect(alloc)?;
    Ok(Sequence::from_vec(deletes))
}

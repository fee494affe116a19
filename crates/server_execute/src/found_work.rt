//! A statement's work with the rows that it meets and makes.

ghost use Rattle.std.specs.Prelude.{◌≡◌, IfOk};
ghost use Rattle.server_execute.specs.FoundWork.{met_by, made_by, found_in};

use crate::settings::new_rows;
use base_values::{Row, Rows, Sequence};
use server_model::Work;
use server_seen::SeenTable;
use std::alloc::{AllocError, Global};

/// What a statement is to do, with the rows that it meets and the new ones of an UPDATE. They are found and made once, for the
/// locks that it needs and for what it does.
#[derive(Drop)]
pub struct FoundWork {
    /// What is to be done.
    pub work: Work,
    /// The rows that a REPLACE displaces, or that a DELETE or an UPDATE reaches, in order. Other work meets none: a SELECT, which
    /// locks no row, looks its rows up when it is executed.
    pub met: Rows,
    /// The new rows of an UPDATE whose values store, in the order of `met`; none of other work.
    pub made: Rows,
}

/// The rows that work meets.
fn met_by(alloc: Global, seen: &SeenTable<'_>, work: &Work) -> Result<Rows, AllocError>
    ensures { IfOk result (λ met. met ≡ met_by seen.now.schema seen.now.rows work.now) }
{
    match work {
        Work::Replace(row) => seen.displaced(alloc, row),
        Work::Delete(reach) | Work::Update { reach, .. } => seen.met(alloc, reach),
        Work::Refuse(_) | Work::Insert(_) | Work::Copy(_) | Work::Select { .. } => {
            Ok(Sequence::new(alloc))
        }
    }
}

/// The new rows that work makes of the rows that it meets.
fn made_by(alloc: Global, work: &Work, met: &[Row]) -> Result<Rows, AllocError>
    ensures { IfOk result (λ made. made ≡ made_by work.now met.now) }
{
    match work {
        Work::Update { sets, .. } => new_rows(alloc, sets, met),
        Work::Refuse(_)
        | Work::Insert(_)
        | Work::Copy(_)
        | Work::Replace(_)
        | Work::Delete(_)
        | Work::Select { .. } => Ok(Sequence::new(alloc)),
    }
}

/// Work with the rows that it meets of a table, as a transaction sees it, and those that it makes of them.
pub fn find(alloc: Global, seen: &SeenTable<'_>, work: Work) -> Result<FoundWork, AllocError>
    ensures { IfOk result (λ found. found ≡ found_in seen.now work) }
{
    let met = met_by(alloc, seen, &work)?;
    let made = made_by(alloc, &work, met.as_slice())?;
    Ok(FoundWork { work, met, made })
}

//! A verdict that is seen where its parts are: in the plan, the journal and the tool's record.

ghost use Rattle.std.specs.Prelude.{◌≡◌, IfOk};
ghost use Rattle.tool_state.specs.Verdicts.{key_meant, cause_meant, verdict_meant};

use base_values::gho_schema::key_of;
use base_values::{Key, Name, Sequence, Shared, Value, copy_of};
use server_model::{Cause, Numbers, Task, Verdict};
use std::alloc::{AllocError, Global};

/// The clustered key of a row.
#[derive(Clone, Copy)]
pub enum KeyView<'a> {
    /// It is these values.
    Values(&'a [Value]),
    /// It is the row's values at these places.
    Of {
        /// The row.
        row: &'a [Value],
        /// The places of the key's columns.
        places: &'a [usize],
    },
}

/// Why a migration was reverted.
#[derive(Clone, Copy)]
pub enum CauseView<'a> {
    /// A converted row has a value that doesn't fit its new column.
    Unfit {
        /// The turn at which the column refused, from 1.
        turn: u64,
        /// The row's clustered key in the old schema.
        key: KeyView<'a>,
        /// The column's name in the new schema.
        column: &'a str,
        /// The refusal's number.
        number: u16,
    },
    /// A task failed as often as it may.
    Spent {
        /// Which task it was.
        task: Task,
        /// The turns in which its tries failed, rising.
        turns: &'a [u64],
    },
    /// The operator commanded `panic` in this turn.
    Panic(u64),
}

/// How a migration ended.
#[derive(Clone, Copy)]
pub enum VerdictView<'a> {
    /// The ALTER was done.
    Done,
    /// The ALTER wasn't done, and the table is as before.
    Reverted(CauseView<'a>),
    /// The run hasn't ended.
    Unfinished,
}

impl KeyView<'_> {
    fn copied(self, alloc: Global) -> Result<Key, AllocError>
        ensures { IfOk result (λ key. key ≡ key_meant self.entry) }
    {
        match self {
            KeyView::Values(values) => Shared::from_vec(copy_of(alloc, values)?),
            KeyView::Of { row, places } => key_of(alloc, places, row),
        }
    }
}

/// A copy of numbers.
fn copied_numbers(alloc: Global, numbers: &[u64]) -> Result<Numbers, AllocError>
    ensures { IfOk result (λ copied. copied ≡ numbers.now) }
{
    let mut copied = Sequence::new(alloc);
    for number in numbers {
        copied.push(*number)?;
    }
    Ok(copied)
}

impl CauseView<'_> {
    fn copied(self, alloc: Global) -> Result<Cause, AllocError>
        ensures { IfOk result (λ cause. cause ≡ cause_meant self.entry) }
    {
        Ok(match self {
            CauseView::Unfit {
                turn,
                key,
                column,
                number,
            } => Cause::Unfit {
                turn,
                key: key.copied(alloc)?,
                column: Name::new(alloc, column)?,
                number,
            },
            CauseView::Spent { task, turns } => Cause::Spent {
                task,
                turns: copied_numbers(alloc, turns)?,
            },
            CauseView::Panic(turn) => Cause::Panic { turn },
        })
    }
}

impl VerdictView<'_> {
    /// A copy that outlives the run.
    pub fn copied(self, alloc: Global) -> Result<Verdict, AllocError>
        ensures { IfOk result (λ verdict. verdict ≡ verdict_meant self.entry) }
    {
        match self {
            VerdictView::Done => Ok(Verdict::Done),
            VerdictView::Reverted(cause) => Ok(Verdict::Reverted(cause.copied(alloc)?)),
            VerdictView::Unfinished => Ok(Verdict::Unfinished),
        }
    }
}

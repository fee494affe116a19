//! A statement, or the copy of a row: prepared, and then executed.

ghost use Rattle.std.specs.Prelude.{◌≡◌, [], None};
ghost use Rattle.server_transaction.specs.Premises.{events_ready};

use crate::writes::Writes;
use base_values::{RowEvent, Sequence};
use server_execute::FoundWork;
use server_locks::row_locks::LockSet;
use server_model::Answer;
use std::alloc::Global;

/// What a request is to do to the rows of its table, and the row locks that it needs, over the tables as its session sees them.
#[derive(Drop)]
pub struct Prepared {
    /// What is to be done, with the rows that it meets; nothing where the table doesn't exist, and where the request is none of
    /// rows.
    pub work: Option<FoundWork>,
    /// The row locks.
    pub locks: LockSet,
}

impl Prepared {
    /// Nothing to do, which needs no lock.
    pub fn nothing(alloc: Global) -> Prepared
        ensures work { result.work ≡ None }
        ensures locks { result.locks ≡ [] }
    {
        Prepared {
            work: None,
            locks: Sequence::new(alloc),
        }
    }
}

/// What prepared work gives, and what it writes, made ready so that writing it takes no memory.
#[derive(Drop)]
pub struct ReadyResult {
    /// The answer.
    pub answer: Answer,
    /// What is written, where something is.
    pub writes: Option<Writes>,
}

impl ReadyResult {
    /// The events of what is written.
    pub fn events(&self) -> &[RowEvent]
        ensures { result.now ≡ events_ready self.now.writes }
    {
        match &self.writes {
            Some(writes) => writes.events(),
            None => &[],
        }
    }
}

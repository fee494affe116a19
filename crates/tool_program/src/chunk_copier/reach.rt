//! How far the rows are copied, as a checkpoint tells it.

ghost use Rattle.std.specs.Prelude.{◌≡◌, IfOk};
ghost use Rattle.tool_program.specs.ChunkCopier.Reaches.{reach_meant};
ghost use Rattle.tool_program.specs.Programs.{reach_in};

use crate::chunk_copier::copier::Copier;
use crate::chunk_copier::reader::last_key;
use base_values::{Shared, Value, copy_of};
use server_model::Entry;
use std::alloc::{AllocError, Global};
use tool_changelog::Reach;

/// How far the rows are copied; the key lies in the journal.
#[derive(Clone, Copy)]
pub enum ReachView<'a> {
    /// No row is copied.
    Nothing,
    /// The rows up to this key, and with it, are copied.
    To(&'a [Value]),
    /// All rows are copied.
    All,
}

impl<'a> ReachView<'a> {
    /// The same with a key of its own.
    pub fn copy(self, alloc: Global) -> Result<Reach, AllocError>
        ensures { IfOk result (λ reach. reach ≡ reach_meant self.entry) }
    {
        match self {
            ReachView::Nothing => Ok(Reach::Nothing),
            ReachView::To(key) => Ok(Reach::To(Shared::from_vec(copy_of(alloc, key)?)?)),
            ReachView::All => Ok(Reach::All),
        }
    }
}

impl Copier {
    /// How far the rows are copied: to the end of the last chunk that was committed.
    pub fn reach<'a>(&self, journal: &'a [Entry]) -> ReachView<'a>
        ensures { reach_meant result ≡ reach_in journal.now self.now }
    {
        if self.is_copied {
            return ReachView::All;
        }
        match self.following {
            None => ReachView::Nothing,
            Some(reported) => ReachView::To(last_key(journal, reported)),
        }
    }
}

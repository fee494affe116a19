//! What the copier asks next.

ghost use Rattle.std.specs.Prelude.{◌≡◌, option_map, false, List, IfOk, OnErr};
ghost use Rattle.server_model.specs.Conditions.{is_free};
ghost use Rattle.server_model.specs.LostCalls.{lost_of};
ghost use Rattle.server_model.specs.declared.entry.Entry as entries;
ghost use Rattle.tool_program.specs.declared.chunk_copier.copier.Copier as copiers;
ghost use Rattle.tool_program.specs.ChunkCopier.CopyCalls.{asked_in};
ghost use Rattle.tool_program.specs.ChunkCopier.Copiers.{low_end, key_at, call_at, next, starts, unfit_key};

use crate::chunk_copier::copier::{Copier, CopyRange, CopyStep};
use crate::chunk_copier::reader::{end_reported, keys_reported};
use base_values::{Bound, Duplicate, Key, Span, Value};
use server_model::{Entry, LostCall, Request};
use std::alloc::{AllocError, Global};

/// A call of the copier, with what it needs of the range and of the journal.
#[derive(Clone, Copy)]
pub enum CopyCall<'a> {
    /// It asks where the next chunk of the range ends.
    End(&'a CopyRange),
    /// It begins a chunk and asks for its keys.
    Span {
        /// The range that the chunk is of.
        range: &'a CopyRange,
        /// The turn in which the copier got the chunk's end.
        reported: u64,
        /// How many rows the chunk has at most.
        size: u32,
    },
    /// It copies the row of this key.
    Row(&'a Key),
    /// It commits the chunk.
    Commit,
}

impl CopyCall<'_> {
    /// What a journal keeps of it, where it is lost before it is done; none where it keeps all.
    pub fn lost(self) -> Option<LostCall>
        ensures { (journal : List entries.Entry) (copier : copiers.Copier) → result ≡ lost_of (asked_in journal copier self.entry) }
    {
        match self {
            CopyCall::Commit => None,
            CopyCall::End(_) | CopyCall::Span { .. } | CopyCall::Row(_) => Some(LostCall::Other),
        }
    }
}

impl Copier {
    /// Whether the next call begins a chunk.
    pub fn starts(&self) -> bool
        ensures { result ≡ starts self.now }
    {
        matches!(self.step, CopyStep::Choosing)
    }

    fn low_end(
        &self,
        alloc: Global,
        journal: &[Entry],
        range: &CopyRange,
    ) -> Result<Bound, AllocError>
        ensures { IfOk result (λ low. low ≡ low_end journal.now range.now self.now.following) }
    {
        match self.following {
            None => range.low.copy(),
            Some(reported) => Ok(Bound::Open(end_reported(alloc, journal, reported)?)),
        }
    }

    /// The key of the row that is copied next.
    fn key<'a>(&self, journal: &'a [Entry]) -> Option<&'a Key>
        ensures { option_map (λ key. key.now) result ≡ key_at journal.now self.now.step }
    {
        match self.step {
            CopyStep::Copying { chunk, copied } => keys_reported(journal, chunk.reported).get(
                copied,
            ),
            _ => None,
        }
    }

    /// What is asked of a range that isn't copied.
    fn call_in<'a>(&self, journal: &'a [Entry], range: &'a CopyRange) -> Option<CopyCall<'a>>
        ensures { option_map (asked_in journal.now self.now) result ≡ call_at journal.now self.now range.now self.now.step }
    {
        match self.step {
            CopyStep::Choosing => Some(CopyCall::End(range)),
            CopyStep::Spanning { reported, size } => Some(CopyCall::Span {
                range,
                reported,
                size,
            }),
            CopyStep::Copying { .. } => self.key(journal).map(CopyCall::Row),
            CopyStep::Committing(_) => Some(CopyCall::Commit),
        }
    }

    /// The next call; none where the range is copied. The journal is that of the turns in which the copier got its keys and the
    /// chunks' ends.
    #[tactic(auto, unfolding(crate::specs::ChunkCopier::Copiers::next))]
    pub fn next_call<'a>(&'a self, journal: &'a [Entry]) -> Option<CopyCall<'a>>
        ensures { option_map (asked_in journal.now self.now) result ≡ next journal.now self.now }
    {
        if self.is_copied {
            return None;
        }
        match &self.range {
            Some(range) => self.call_in(journal, range),
            None => None,
        }
    }

    /// What is asked in a call. COMMIT takes no memory.
    pub fn request(
        &self,
        alloc: Global,
        journal: &[Entry],
        call: CopyCall<'_>,
    ) -> Result<Request, AllocError>
        ensures request { IfOk result (λ request. request ≡ asked_in journal.now self.now call.entry) }
        ensures costs { OnErr result (is_free (asked_in journal.now self.now call.entry) ≡ false) }
    {
        Ok(match call {
            CopyCall::End(range) => Request::ChunkEnd {
                table: self.table.name().copy()?,
                low: self.low_end(alloc, journal, range)?,
                top: range.top.copy()?,
                size: self.size,
            },
            CopyCall::Span {
                range,
                reported,
                size,
            } => Request::BeginSpan {
                table: self.table.name().copy()?,
                span: Span {
                    low: self.low_end(alloc, journal, range)?,
                    high: Bound::Closed(end_reported(alloc, journal, reported)?),
                },
                size,
            },
            CopyCall::Row(key) => Request::CopyRow {
                from: self.table.name().copy()?,
                into: self.table.ghost_name().copy()?,
                map: self.map.copy()?,
                key: key.copy()?,
            },
            CopyCall::Commit => Request::Commit,
        })
    }

    /// The clustered key of the row that didn't fit, once an answer said so.
    pub fn unfit_key<'a>(&self, journal: &'a [Entry]) -> &'a [Value]
        ensures { result.now ≡ unfit_key journal.now self.now }
    {
        match self.key(journal) {
            Some(key) => key.as_slice(),
            None => &[],
        }
    }
}

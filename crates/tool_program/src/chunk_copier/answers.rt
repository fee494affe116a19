//! What the copier makes of an answer. Nothing here takes memory.

ghost use Rattle.std.specs.Prelude.{◌≡◌, ◌+◌, ◌<◌, ◌≤◌};
ghost use Rattle.tool_program.specs.ChunkCopier.Copiers.{new_copier, begun, after_copies, is_top, committed, took, progress, resized};
ghost use Rattle.tool_program.specs.ChunkCopier.CopierFacts.{StepFits};

use crate::chunk_copier::copier::{Chunk, Copier, CopyRange, CopyStep};
use base_values::Key;
use base_values::row_conversion::ColumnMap;
use plan_data::MigratedTable;
use server_model::{Answer, Progress};

fn is_top(range: &Option<CopyRange>, key: &Key) -> bool
    ensures { result ≡ is_top range.now key.now }
{
    match range {
        Some(range) => key.cmp(&range.top).is_eq(),
        None => true,
    }
}

/// A chunk whose keys were read.
fn begun(chunk: Chunk) -> CopyStep
    ensures { result ≡ begun chunk }
{
    if chunk.keys == 0 {
        CopyStep::Committing(chunk)
    } else {
        CopyStep::Copying { chunk, copied: 0 }
    }
}

/// After the copy of this many of a chunk's keys.
fn after_copies(chunk: Chunk, copied: usize) -> CopyStep
    ensures { result ≡ after_copies chunk copied }
{
    if copied == chunk.keys {
        CopyStep::Committing(chunk)
    } else {
        CopyStep::Copying { chunk, copied }
    }
}

impl Copier {
    /// A copier of a range, at its start.
    pub fn new(table: MigratedTable, map: ColumnMap, range: Option<CopyRange>, size: u32) -> Copier
        ensures made { result ≡ new_copier table map range size }
        ensures fits { StepFits result.step }
    {
        let is_copied = range.is_none();
        Copier {
            table,
            map,
            range,
            size,
            number: 1,
            following: None,
            is_copied,
            step: CopyStep::Choosing,
        }
    }

    /// Takes the answer that a call got in this turn. A chunk whose session was lost or whose wait timed out begins
    /// again.
    #[tactic(auto, unfolding(crate::specs::ChunkCopier::Copiers::took))]
    pub fn took(&mut self, turn: u64, answer: &Answer)
        requires number { self.old.number < u64.MAX }
        requires fits { StepFits self.old.step }
        ensures took { self.new ≡ took turn self.old answer.now }
        ensures number { self.new.number ≤ self.old.number + 1 }
        ensures fits { StepFits self.new.step }
    {
        match (self.step, answer) {
            (_, Answer::Lost | Answer::TimedOut { .. }) => self.step = CopyStep::Choosing,
            (CopyStep::Choosing, Answer::End(_)) => {
                self.step = CopyStep::Spanning {
                    reported: turn,
                    size: self.size,
                };
            }
            (CopyStep::Spanning { .. }, Answer::Keys { keys, end }) => {
                self.step = begun(Chunk {
                    reported: turn,
                    keys: keys.len(),
                    is_last: is_top(&self.range, end),
                });
            }
            (CopyStep::Copying { chunk, copied }, Answer::Ok(_)) => {
                self.step = after_copies(chunk, copied + 1);
            }
            (CopyStep::Committing(chunk), Answer::Ok(_)) => self.commit(chunk),
            _ => {}
        }
    }

    /// The chunk is committed: the next one begins after its end.
    fn commit(&mut self, chunk: Chunk)
        requires { self.old.number < u64.MAX }
        ensures { self.new ≡ committed self.old chunk }
    {
        self.number += 1;
        self.following = Some(chunk.reported);
        self.is_copied = chunk.is_last;
        self.step = CopyStep::Choosing;
    }

    /// What the answer means for the chunk, before it is taken.
    #[tactic(auto, unfolding(crate::specs::ChunkCopier::Copiers::progress))]
    pub fn progress(&self, answer: &Answer) -> Progress
        ensures { result ≡ progress self.now answer.now }
    {
        match (self.step, answer) {
            (_, Answer::Lost | Answer::TimedOut { .. }) => Progress::TaskFailed,
            (
                CopyStep::Copying { .. },
                Answer::Refused {
                    number,
                    column: Some(column),
                },
            ) => Progress::Unfit {
                column: *column,
                number: *number,
            },
            (CopyStep::Committing(_), Answer::Ok(_)) => Progress::TaskDone,
            _ => Progress::Going,
        }
    }

    /// From the next chunk on a chunk has at most `size` rows.
    pub fn resize(&mut self, size: u32)
        ensures { self.new ≡ resized size self.old }
    {
        self.size = size;
    }
}

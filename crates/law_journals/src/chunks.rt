//! Chunks are as small as the operator asks.

ghost use Rattle.proof_migration.specs.ToolPhase.Chunks.{ChunkEndsComeAtOnce, JournalsAreOnline};

use base_values::laws::stored_values_store_again;

/// Where a chunk ends is answered at once: until all rows are copied nobody asks for the migrated table's name exclusively.
pub fn chunk_ends_come_at_once()
    ensures { ChunkEndsComeAtOnce }
{}

/// Each run of a runnable plan is online: no chunk copies more rows than the size that stood when its end was asked for.
pub fn journals_are_online()
    ensures { JournalsAreOnline }
{
    stored_values_store_again();
}

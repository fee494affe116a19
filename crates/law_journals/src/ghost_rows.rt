//! The ghost relation on rows, events and converted rows: what every step of the copier, the applier and the clients keeps,
//! whatever their order.

ghost use Rattle.proof_journals.specs.Ghost.Rows.Laws.{TimelinesAreValid, MigrationsStart, LogsGrow, ChunksBegin, RowsAreCopied, RowsAreMet, ChunksCommit, ChunksRollBack, ChunksRepeat, RangesEnd, ReplaceApplies, DeleteApplies, UpdateApplies, UpdateMisses, HalvesApply, EventsPass, BatchesCommit, BatchesRollBack, BatchesRepeat, GhostsAreAltered};

/// The rows at each moment of a log that fits them are a table, and converted rows clash only where they do.
pub fn timelines_are_valid()
    ensures { TimelinesAreValid }
{}

/// The migration is under way once the range is read.
pub fn migrations_start()
    ensures { MigrationsStart }
{}

/// Any session's commit keeps it under way.
pub fn logs_grow()
    ensures { LogsGrow }
{}

/// A chunk is begun, and each of its rows is copied, or met by one that clashes with its converted row.
pub fn rows_are_copied()
    ensures begun { ChunksBegin }
    ensures copied { RowsAreCopied }
    ensures met { RowsAreMet }
{}

/// The chunk is committed, rolled back or to be repeated; the last one ends the range.
pub fn chunks_end()
    ensures committed { ChunksCommit }
    ensures rolled_back { ChunksRollBack }
    ensures repeated { ChunksRepeat }
    ensures last { RangesEnd }
{}

/// Each kind of event is applied by its statements; those of other tables are passed over.
pub fn events_apply()
    ensures replace { ReplaceApplies }
    ensures delete { DeleteApplies }
    ensures update { UpdateApplies }
    ensures missed { UpdateMisses }
    ensures half { HalvesApply }
    ensures passed { EventsPass }
{}

/// The batch is committed, rolled back or to be repeated.
pub fn batches_end()
    ensures committed { BatchesCommit }
    ensures rolled_back { BatchesRollBack }
    ensures repeated { BatchesRepeat }
{}

/// At the end the ghost is the altered table.
pub fn ghosts_are_altered()
    ensures { GhostsAreAltered }
{}

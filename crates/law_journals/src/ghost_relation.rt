//! The ghost relation: while rows are copied and events applied in any order, each row of the new table is its row, converted,
//! as it was at a moment that the applier hasn't passed.

ghost use Rattle.proof_journals.specs.Ghost.Relation.Laws.{MigrationsStart, LogsGrow, ChunksBegin, RowsAreCopied, RowsAreMet, ChunksCommit, ChunksRollBack, EventsApply, HalvesApply, EventsPass, BatchesCommit, BatchesRollBack, BatchesRepeat, ReplaceApplies, DeleteApplies, UpdateApplies, GhostsEnd};

/// It holds at the start, where the ghost is empty and no key is held.
pub fn migrations_start<K, R, M>()
    ensures { MigrationsStart K R M }
{}

/// Any session's commit keeps it: the log grows.
pub fn logs_grow<K, R, M>()
    ensures { LogsGrow K R M }
{}

/// A chunk of keys is begun; each of its rows is copied, or a row that clashes with its converted row exists already.
pub fn rows_are_copied<K, R, M>()
    ensures begun { ChunksBegin K R M }
    ensures copied { RowsAreCopied K R M }
    ensures met { RowsAreMet K R M }
{}

/// The chunk is committed or rolled back.
pub fn chunks_end<K, R, M>()
    ensures committed { ChunksCommit K R M }
    ensures rolled_back { ChunksRollBack K R M }
{}

/// An event is applied, whole or half, or passed over.
pub fn events_apply<K, R, M>()
    ensures whole { EventsApply K R M }
    ensures half { HalvesApply K R M }
    ensures passed { EventsPass K R M }
{}

/// Which statement applies which event.
pub fn statements_apply<K, R, M>()
    ensures replace { ReplaceApplies K R M }
    ensures delete { DeleteApplies K R M }
    ensures update { UpdateApplies K R M }
{}

/// A batch is committed or rolled back, or is to be repeated though its commit was done.
pub fn batches_end<K, R, M>()
    ensures committed { BatchesCommit K R M }
    ensures rolled_back { BatchesRollBack K R M }
    ensures repeated { BatchesRepeat K R M }
{}

/// At the end the ghost is the altered table.
pub fn ghosts_end<K, R, M>()
    ensures { GhostsEnd K R M }
{}

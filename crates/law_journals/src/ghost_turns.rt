//! The ghost relation under the server's locks: what the grants give of it, and that every turn of the copier, the applier
//! and the clients keeps it.

ghost use Rattle.proof_journals.specs.Ghost.Laws.{WritesFit, EffectsAreDone, EffectsAnswer, UndoneIsLeft, CutsAreLeft, ChangesAgree, CommitsFit, RowsAreHeld, HeldByOne, HeldRowsAreDisjoint, CopyStarts, EmptyCopyStarts, CopyEnds, OthersCommit, OthersGoOn, TablesMove, CopierReturns, ApplierReturns, ChunksAreReported, ChunkBegins, ReportedKeysStand, RowCopies, ChunkCommits, RangeIsCopied, ChunkIsLost, ChunkRepeats, BatchIsRead, BatchIsPassed, RowIsPut, RowIsPutAgain, RowIsRemoved, RowIsChanged, UnfitRowIsMissed, StatementIsRefused, RefusedRowIsRemoved, BatchCommits, BatchRepeats, BatchIsLost, RunsKeep, CopiesAlter, SceneCopiesAlter};

/// After every run, what each session wrote fits the committed tables, under its locks.
pub fn writes_fit()
    ensures { WritesFit }
{}

/// Where a request was done, its effect tells what is left of the tables, the log and of what sessions hold, and what is
/// answered; where it wasn't, all stays but what its session holds.
pub fn effects_are_done()
    ensures done { EffectsAreDone }
    ensures answered { EffectsAnswer }
    ensures undone { UndoneIsLeft }
    ensures cut { CutsAreLeft }
{}

/// A change that fits is the same by value and by key; committed events that fit give each table its rows at the log's end.
pub fn commits_fit()
    ensures changes { ChangesAgree }
    ensures commits { CommitsFit }
{}

/// What locks on a row's points give: its key is held, by one session alone, and no row of another's is met.
pub fn rows_are_held()
    ensures held { RowsAreHeld }
    ensures one { HeldByOne }
    ensures disjoint { HeldRowsAreDisjoint }
{}

/// The copy starts when the range is read.
pub fn copies_start()
    ensures started { CopyStarts }
    ensures empty { EmptyCopyStarts }
{}

/// At the end the new table is the altered one.
pub fn copies_end()
    ensures { CopyEnds }
{}

/// Turns of other sessions.
pub fn others_go_on()
    ensures committed { OthersCommit }
    ensures goes_on { OthersGoOn }
    ensures moved { TablesMove }
{}

/// A session is lost, and its actor goes on in another.
pub fn sessions_return()
    ensures copier { CopierReturns }
    ensures applier { ApplierReturns }
{}

/// The copier's turns in a chunk.
pub fn rows_are_copied()
    ensures reported { ChunksAreReported }
    ensures begun { ChunkBegins }
    ensures stands { ReportedKeysStand }
    ensures copied { RowCopies }
{}

/// The chunk's end.
pub fn chunks_end()
    ensures committed { ChunkCommits }
    ensures last { RangeIsCopied }
    ensures lost { ChunkIsLost }
    ensures repeated { ChunkRepeats }
{}

/// The applier reads a batch.
pub fn batches_begin()
    ensures read { BatchIsRead }
    ensures passed { BatchIsPassed }
{}

/// The applier's statements.
pub fn rows_are_applied()
    ensures put { RowIsPut }
    ensures put_again { RowIsPutAgain }
    ensures removed { RowIsRemoved }
    ensures changed { RowIsChanged }
    ensures missed { UnfitRowIsMissed }
    ensures refused { StatementIsRefused }
    ensures removed_again { RefusedRowIsRemoved }
{}

/// The batch's end.
pub fn batches_end()
    ensures committed { BatchCommits }
    ensures repeated { BatchRepeats }
    ensures lost { BatchIsLost }
{}

/// Turns in any order keep it.
pub fn runs_keep()
    ensures { RunsKeep }
{}

/// From its start to its end, a copy makes the new table the altered one.
pub fn copies_alter()
    ensures served { CopiesAlter }
    ensures scene { SceneCopiesAlter }
{}

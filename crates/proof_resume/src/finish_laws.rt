//! What holds of a new tool's turns: each function's contract is a law.

ghost use Rattle.proof_resume.specs.Finish.Batches.{ApplierTurnsAreFew, ReadsLetGoOn};
ghost use Rattle.proof_resume.specs.Finish.Bounds.{FinishesAreFew};
ghost use Rattle.proof_resume.specs.Finish.Callable.{FinishesMayCall, KeptRunsLeaveTables};
ghost use Rattle.proof_resume.specs.Finish.Chunks.{CopierTurnsAreFew, CopiersGoOn, NewCopiersHaveFew};
ghost use Rattle.proof_resume.specs.Finish.Counts.{OtherTurnsAreFew};
ghost use Rattle.proof_resume.specs.Finish.Marks.{FinishesAlterOnce};
ghost use Rattle.proof_resume.specs.Finish.Prompt.{AnswersComeAtOnce, FinishesKeepSessions};
ghost use Rattle.proof_resume.specs.Finish.Readings.{FinishesReadCheckpoints};
ghost use Rattle.proof_resume.specs.Finish.Runs.{FinishesAreRuns, FinishesAreSerial};
ghost use Rattle.proof_resume.specs.Finish.Starts.{RangesAreNow};
ghost use Rattle.proof_resume.specs.Finish.Verdicts.{DoneFinishesAltered, FinishesRevertByRows, RevertedFinishesDidNot};
ghost use Rattle.proof_resume.specs.Finish.Walks.{FinishesAlter};

/// None of the new tool's calls waits, times out or is lost.
pub fn answers_come_at_once()
    ensures calls { AnswersComeAtOnce }
    ensures sessions { FinishesKeepSessions }
{}

/// A finished run is a run of its plan, and serial, where the new table is the altered one when the tables are exchanged.
pub fn finishes_are_runs()
    ensures runs { FinishesAreRuns }
    ensures serial { FinishesAreSerial }
{}

/// Where the new copier and the new applier start right, the new table is the altered one when the tables are exchanged.
pub fn finishes_alter()
    ensures { FinishesAlter }
{}

/// The range that a new tool is answered is that of the migrated table's rows as they exist.
pub fn ranges_are_now()
    ensures { RangesAreNow }
{}

/// The ALTER is at most once in the history of a run's turns and the new tool's together.
pub fn finishes_alter_once()
    ensures { FinishesAlterOnce }
{}

/// Where a new tool is done, the ALTER is in the history of the run's turns and its own; where it reverts, it isn't.
pub fn finish_verdicts_are_right()
    ensures done { DoneFinishesAltered }
    ensures reverted { RevertedFinishesDidNot }
{}

/// A new tool reverts only by a row that doesn't fit: its refusal is in the journal, at a turn of the new tool's, and is the verdict's cause.
pub fn finishes_revert_by_rows()
    ensures { FinishesRevertByRows }
{}

/// What the new tool asks may be asked of the server as it then is; a kept run leaves the tables for that.
pub fn finishes_may_call()
    ensures calls { FinishesMayCall }
    ensures tables { KeptRunsLeaveTables }
{}

/// Besides its copier's and its applier's turns a new tool loses no more sessions than there are actors, and makes nine calls at most.
pub fn other_turns_are_few()
    ensures { OtherTurnsAreFew }
{}

/// Each turn of an applier leaves one turn fewer of six for each event that isn't read, where its answer lets it go on, as
/// the reading of some event does.
pub fn applier_turns_are_few()
    ensures turns { ApplierTurnsAreFew }
    ensures reads { ReadsLetGoOn }
{}

/// Each turn of a copier leaves one turn fewer of four for each row above its low end and three, where its answer lets it go on, as
/// the server's do.
pub fn copier_turns_are_few()
    ensures turns { CopierTurnsAreFew }
    ensures begins { NewCopiersHaveFew }
    ensures goes { CopiersGoOn }
{}

/// Behind a kept run that has a checkpoint the new tool is answered a row that it can read, also where the run did the RENAME.
pub fn finishes_read_checkpoints()
    ensures { FinishesReadCheckpoints }
{}

/// A new tool takes four turns at most for each row of the migrated table, six for each event that the run left, and 90, whether the
/// run did its RENAME or not.
pub fn finishes_are_few()
    ensures { FinishesAreFew }
{}

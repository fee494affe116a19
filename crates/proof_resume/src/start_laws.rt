//! How the new tool begins: each function's contract is a law.

ghost use Rattle.proof_resume.specs.Starts.Laws.{CheckpointsAreRead, FinishesExchangeAltered, FinishesStart, FinishesStartRight, FoundIsBehind, FoundIsKeyed, KeptRunsAreFinishable, RangesStart, ReadsAnswerCheckpoint, StagesFind};

/// Each stage before the copy finds what it needs: after the losses nobody is there, and nothing else was changed. The SELECT answers the
/// checkpoint's row.
pub fn stages_find()
    ensures find { StagesFind }
    ensures reads { ReadsAnswerCheckpoint }
{}

/// The copy starts from the keys that now exist, with all as the run left it; and with a checkpoint behind the tool that was lost the
/// migration stands.
pub fn finishes_start()
    ensures ranges { RangesStart }
    ensures start { FinishesStart }
{}

/// The checkpoint's row is read back as a checkpoint that is behind the tool that was lost, and it is the one that the new tool found.
pub fn checkpoints_are_read()
    ensures read { CheckpointsAreRead }
    ensures found { FoundIsBehind }
{}

/// Wherever a new tool is answered the range of keys, the migration stands for its copier and its applier; so it exchanges the tables
/// when the new one is the altered one.
pub fn finishes_exchange_altered()
    ensures right { FinishesStartRight }
    ensures altered { FinishesExchangeAltered }
{}

/// Behind every kept run that has a checkpoint each call of the new tool may be made: what a run that is finished asks. The checkpoint
/// that the new tool finds reaches to a key of the migrated table.
pub fn kept_runs_are_finishable()
    ensures keyed { FoundIsKeyed }
    ensures finishable { KeptRunsAreFinishable }
{}

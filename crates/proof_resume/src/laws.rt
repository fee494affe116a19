//! What stays, and where a new tool goes on: each function's contract is a law.

ghost use Rattle.proof_resume.specs.Reached.Laws.{CheckpointsAreBehind, CheckpointsExist, CheckpointsLast, CheckpointsStay, CheckpointsStayBehind, ChunkEndsAreAbove, ChunksShrink, EndsStayAbove, LeftShrinks, NotesAreBehind, PositionsRise, ReachesCover, ReachesRise, SpanEndsAreAbove, StoredCheckpointsAreBehind};
ghost use Rattle.proof_resume.specs.Settled.Alone.{CallsAreDoneAlone};
ghost use Rattle.proof_resume.specs.Settled.Laws.{KeptRunsSettle, MovesSettle, NewToolsStart, OthersSettle, QuietTurnsStoreNothing, RelationsSettle, ResumedCopiesAlter, RevertsRollBack, SettledEarlier, SettledStarts, SettledThrough, TurnsSettle};
ghost use Rattle.proof_resume.specs.Settled.ResumeLaws.{CheckpointsSettle, ResumesStart};

/// After a chunk no key is left to copy that was copied.
pub fn chunks_shrink()
    ensures shrinks { ChunksShrink }
    ensures ends { ChunkEndsAreAbove }
    ensures spans { SpanEndsAreAbove }
{}

/// A chunk ends above its low end, or at the greatest key, whatever the copier is answered.
pub fn ends_stay_above()
    ensures { EndsStayAbove }
{}

/// After each turn of the copier no key is left to copy that was copied.
pub fn left_shrinks()
    ensures { LeftShrinks }
{}

/// The applier's position never falls.
pub fn positions_rise()
    ensures { PositionsRise }
{}

/// The copier's reach never falls.
pub fn reaches_rise()
    ensures { ReachesRise }
{}

/// What a reach covers isn't left to copy, and a checkpoint that is behind a tool is behind it where it has come further.
pub fn reaches_cover()
    ensures covers { ReachesCover }
    ensures stays { CheckpointsStayBehind }
{}

/// A checkpoint of the tool as it is, is behind the tool, and stays so after each turn.
pub fn checkpoints_stay()
    ensures noted { NotesAreBehind }
    ensures stays { CheckpointsStay }
{}

/// After every kept journal, through reverts too, the last checkpoint that was written is behind the tool.
pub fn checkpoints_are_behind()
    ensures { CheckpointsAreBehind }
{}

/// The changelog has a row with id 0 exactly where a checkpoint was written, and it is the row of the last one, which is behind the
/// tool; it is there after the RENAME too, as long as the changelog exists.
pub fn checkpoints_exist()
    ensures exist { CheckpointsExist }
    ensures behind { StoredCheckpointsAreBehind }
    ensures last { CheckpointsLast }
{}

/// Wherever the copier and the applier are, the committed new table is settled; so it is at each earlier position, where others
/// commit, and where other tables are made, dropped or renamed.
pub fn relations_settle()
    ensures relations { RelationsSettle }
    ensures earlier { SettledEarlier }
    ensures others { OthersSettle }
    ensures moves { MovesSettle }
{}

/// Turns of sessions that keep away from the new table, and turns that store nothing, leave it settled.
pub fn turns_settle()
    ensures away { TurnsSettle }
    ensures quiet { QuietTurnsStoreNothing }
    ensures through { SettledThrough }
{}

/// After every kept turn before the RENAME the new table is settled, whether all is reverted or not.
pub fn runs_settle()
    ensures { KeptRunsSettle }
{}

/// In a revert the copier and the applier call nothing but ROLLBACK.
pub fn reverts_roll_back()
    ensures { RevertsRollBack }
{}

/// A new copier and a new applier start from the settled new table, and make the altered one.
pub fn new_tools_start()
    ensures settled { SettledStarts }
    ensures start { NewToolsStart }
    ensures altered { ResumedCopiesAlter }
{}

/// Who is alone on the server is not kept waiting.
pub fn calls_are_done_alone()
    ensures { CallsAreDoneAlone }
{}

/// From a checkpoint that is behind the tool that was lost a new copier and a new applier start, whether all was reverted or not.
pub fn resumes_start()
    ensures settled { CheckpointsSettle }
    ensures start { ResumesStart }
{}

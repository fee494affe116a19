//! What holds of every statement: what it says depends on what its locks cover, and what it writes is covered by them. Each
//! function's contract is a law.

ghost use Rattle.server_model.specs.LockedRows.Counters.{NewRowsAreBelow, CountersNeverFall, NumbersAreCounters};
ghost use Rattle.server_model.specs.LockedRows.Laws.{LockedRowsDecide, WritesAreCovered, WorkIsSound, SoundWorkKeepsTables, StatementsKeepDatabases, OthersSeeTheSame};

/// What a statement says and needs is decided by the rows under the locks that it needs.
pub fn locked_rows_decide()
    ensures { LockedRowsDecide }
{}

/// All that a statement writes lies under the locks that it needs.
pub fn writes_are_covered()
    ensures { WritesAreCovered }
{}

/// Statements leave tables what they are: a statement's work is sound, sound work leaves a table a table, and so every
/// statement leaves a well-formed database well formed.
pub fn statements_keep_tables()
    ensures sound { WorkIsSound }
    ensures tables { SoundWorkKeepsTables }
    ensures databases { StatementsKeepDatabases }
{}

/// What one session writes under its locks changes nothing under another's.
pub fn others_see_the_same()
    ensures { OthersSeeTheSame }
{}

/// A statement's new rows are below its table's counter, no turn lowers a counter, and a number that is drawn is the counter, which is behind it afterwards.
pub fn counters_stay_ahead()
    ensures below { NewRowsAreBelow }
    ensures rise { CountersNeverFall }
    ensures drawn { NumbersAreCounters }
{}

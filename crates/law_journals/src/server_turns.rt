//! What one turn of a session leaves to the others: names, waits, rows under locks, and the tables that exist.

ghost use Rattle.proof_journals.specs.ServerTurns.Others.{EntriesAreTurns, ExclusiveIsAlone, OthersAgree, OthersStay, RowsStay, SpanStays, LocksAreTaken, SpansAreHeld, DefinitionsAreDone, StatesHold};

/// What a turn does to names that are held and waited for, to the log, and to which tables exist.
pub fn entries_are_turns()
    ensures { EntriesAreTurns }
{}

/// Where a request that needs its names exclusively is done, no other session holds one of them.
pub fn exclusive_is_alone()
    ensures { ExclusiveIsAlone }
{}

/// What a session sees under its locks is the same after another's turn.
pub fn others_agree()
    ensures { OthersAgree }
{}

/// What a session holds, and sees under its locks, is the same after any number of turns of others.
pub fn others_stay()
    ensures { OthersStay }
{}

/// Databases that agree under names and locks have the same rows under each of the locks.
pub fn rows_stay()
    ensures { RowsStay }
{}

/// ... and the same rows of a span that is locked.
pub fn span_stays()
    ensures { SpanStays }
{}

/// LOCK TABLES that is done leaves its names with its session, exclusively.
pub fn locks_are_taken()
    ensures { LocksAreTaken }
{}

/// BeginSpan that is answered keys leaves the table's name and a lock of the span with its session.
pub fn spans_are_held()
    ensures { SpansAreHeld }
{}

/// CREATE, DROP and RENAME that are done leave the tables that they make.
pub fn definitions_are_done()
    ensures { DefinitionsAreDone }
{}

/// The state after a run: its tables are tables, writes are covered by locks, and locks of two sessions stay apart.
pub fn states_hold()
    ensures { StatesHold }
{}

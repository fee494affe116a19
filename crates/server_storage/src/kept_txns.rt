//! What the committed tables and the open transactions over them keep, whatever is called, and what holds of a session's
//! transaction while it and the others go on: it stays one of the database's. Each function's contract is a law.

ghost use Rattle.server_storage.specs.KeptTxns.Laws.{BeginningKeeps, OpeningKeeps, ReservingKeeps, MakingRoomKeeps, RoomMakesReady, WritingKeeps, KeptMayBeCommitted, CommittingKeeps, RollingBackKeeps, CreatingKeeps, DroppingKeeps, RenamingKeeps};
ghost use Rattle.server_storage.specs.KeptTxns.Transactions.{TransactionsBegin, TransactionsGrow, TransactionsOutlastCommits, TransactionsOutlastCreations, TransactionsOutlastDrops, TransactionsOutlastRenames};

/// Orderly tables without an open transaction keep what is kept.
pub fn beginning_keeps()
    ensures { BeginningKeeps }
{}

/// What is kept is kept where a transaction is opened.
pub fn opening_keeps()
    ensures { OpeningKeeps }
{}

/// What is kept is kept where a transaction gets more room.
pub fn reserving_keeps()
    ensures { ReservingKeeps }
{}

/// What is kept is kept where a table gets more room.
pub fn making_room_keeps()
    ensures { MakingRoomKeeps }
{}

/// Writes for which there is room are ready.
pub fn room_makes_ready()
    ensures { RoomMakesReady }
{}

/// What is kept is kept where a session writes what is ready.
pub fn writing_keeps()
    ensures { WritingKeeps }
{}

/// Each open transaction may be committed.
pub fn kept_may_be_committed()
    ensures { KeptMayBeCommitted }
{}

/// What is kept is kept where a session commits.
pub fn committing_keeps()
    ensures { CommittingKeeps }
{}

/// What is kept is kept where a session rolls back.
pub fn rolling_back_keeps()
    ensures { RollingBackKeeps }
{}

/// What is kept is kept where a table is created.
pub fn creating_keeps()
    ensures { CreatingKeeps }
{}

/// What is kept is kept where a table is dropped.
pub fn dropping_keeps()
    ensures { DroppingKeeps }
{}

/// What is kept is kept where tables are renamed.
pub fn renaming_keeps()
    ensures { RenamingKeeps }
{}

/// A transaction that wrote nothing is one of every well-formed database.
pub fn transactions_begin()
    ensures { TransactionsBegin }
{}

/// A transaction that writes what fits is one of the database still.
pub fn transactions_grow()
    ensures { TransactionsGrow }
{}

/// A transaction outlasts another one's commit.
pub fn transactions_outlast_commits()
    ensures { TransactionsOutlastCommits }
{}

/// A transaction outlasts CREATE TABLE.
pub fn transactions_outlast_creations()
    ensures { TransactionsOutlastCreations }
{}

/// A transaction outlasts DROP TABLE of a table to which it didn't write.
pub fn transactions_outlast_drops()
    ensures { TransactionsOutlastDrops }
{}

/// A transaction outlasts RENAME TABLE of tables to which it didn't write.
pub fn transactions_outlast_renames()
    ensures { TransactionsOutlastRenames }
{}

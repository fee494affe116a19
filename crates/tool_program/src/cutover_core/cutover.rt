//! How far the cut-over is.

use plan_data::MigratedTable;

/// Which of the tool's three takes part.
#[derive(Clone, Copy)]
pub enum Role {
    /// It writes the hint row, looks at what waits and what exists, and clears up.
    Inspector,
    /// It makes the sentry and locks the tables.
    Locker,
    /// It asks for the RENAME.
    Renamer,
}

/// How far the applier is with the events before the hint row.
#[derive(Clone, Copy)]
pub enum Drain {
    /// It took this many turns since the hint row was written, and hasn't passed it.
    Turns(u32),
    /// It is past the hint row.
    Passed,
}

/// How far an attempt is that may yet succeed.
#[derive(Clone, Copy)]
pub enum Stage {
    /// The sentry was asked for, and waits.
    Guarding,
    /// LOCK TABLES comes next, or waits.
    Locking,
    /// The hint row comes next.
    Hinting,
    /// The hint row is written, and the table has an AUTO_INCREMENT column: the number that it gets next is asked for.
    ReadingCounter(Drain),
    /// That number is known: the new table's counter is set to it next, or waits to be.
    SettingCounter {
        /// The number.
        number: u64,
        /// How far the applier is meanwhile.
        drain: Drain,
    },
    /// The hint row is written, and the counter is set where there is one; the applier took this many turns since the hint row and
    /// hasn't passed it.
    Draining(u32),
    /// The applier is past the hint row: the RENAME comes next.
    Drained,
    /// The RENAME waits: the inspector looks for it next.
    Showing,
    /// The RENAME was seen waiting: the sentry is dropped next.
    Dropping,
    /// The sentry is dropped: UNLOCK TABLES comes next.
    Unlocking,
    /// Unlocked: the RENAME is polled.
    Exchanging,
}

/// Which of the tool's tables are still to be dropped.
#[derive(Clone, Copy)]
pub struct Leftovers {
    /// The changelog.
    pub log: bool,
    /// The new table, by the name that it has before the RENAME.
    pub new_table: bool,
    /// The old table, or the sentry, which has its name.
    pub old: bool,
}

/// What is done to clear up.
#[derive(Clone, Copy)]
pub enum Clearing {
    /// The tables are looked at.
    Looking,
    /// What was seen is dropped, one by one.
    Drops(Leftovers),
}

/// How far the cut-over is with its attempts.
#[derive(Clone, Copy)]
pub enum Phase {
    /// No attempt is under way.
    Resting,
    /// An attempt is under way and may succeed.
    Attempting(Stage),
    /// An attempt is under way that won't succeed.
    Ending(Clearing),
    /// The RENAME was done, and all is cleared up.
    Finishing(Clearing),
    /// All is cleared up.
    Finished,
}

/// What the locker has of the server.
#[derive(Clone, Copy)]
pub enum Hold {
    /// It holds no lock and waits for none.
    Nothing,
    /// Its CREATE of the sentry waits.
    WaitsToGuard,
    /// Its LOCK TABLES waits.
    WaitsToLock,
    /// It holds LOCK TABLES.
    Locks,
}

/// How far the cut-over is.
#[derive(Drop)]
pub struct CutOver {
    /// The migrated table.
    pub table: MigratedTable,
    /// In how many turns the applier must pass the hint row.
    pub drain_limit: u32,
    /// Whether the old table is dropped at the end.
    pub drops_old: bool,
    /// Whether the migrated table has an AUTO_INCREMENT column, whose counter goes to the new table.
    pub has_counter: bool,
    /// How many attempts were begun.
    pub attempts: u64,
    /// How far it is with its attempts.
    pub phase: Phase,
    /// What the locker has of the server.
    pub hold: Hold,
    /// Whether the RENAME waits.
    pub renamer_waits: bool,
    /// Whether the RENAME was asked for in the attempt that is under way.
    pub is_asked: bool,
    /// Whether no attempt begins any more.
    pub is_stopped: bool,
}

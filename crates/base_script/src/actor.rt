//! Who takes turns.

/// Who takes a turn: a part of the tool, or a client of the server.
#[derive(Clone, Copy, PartialEq, Eq)]
pub enum Actor {
    /// The operator, who commands the tool.
    Op,
    /// The inspector, which looks at the tables before and after the migration.
    Insp,
    /// The copier, which copies rows chunk by chunk.
    Copy,
    /// The applier, which applies logged changes to the new table.
    Apply,
    /// The locker, which locks the tables for the cut-over.
    Lock,
    /// The renamer, whose RENAME is the cut-over.
    Ren,
    /// A client of the server; clients count from 1.
    Client(u32),
}

/// On which side of a call to the server its session is lost.
#[derive(Clone, Copy)]
pub enum Side {
    /// Before the call: the server doesn't do it.
    Before,
    /// After the call: the server has done it, and nobody hears the answer.
    After,
}

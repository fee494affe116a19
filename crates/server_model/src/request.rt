//! What a session asks of the server.

ghost use Rattle.std.specs.Prelude.{◌≡◌, IfOk};

use base_script::Statement;
use base_values::gho_schema::Schema;
use base_values::row_conversion::ColumnMap;
use base_values::{Bound, Duplicate, Key, Name, Names, Span};
use std::alloc::AllocError;
use table_store::Pairs;

/// One call of a session.
pub enum Request {
    /// BEGIN.
    Begin,
    /// COMMIT.
    Commit,
    /// ROLLBACK.
    Rollback,
    /// One statement.
    Do(Statement),
    /// The least and the greatest clustered key of a table's committed rows.
    Ends(Name),
    /// Where the next chunk of a table ends.
    ChunkEnd {
        /// The table's name.
        table: Name,
        /// The end of the chunk before, or the least key of the range.
        low: Bound,
        /// The greatest key of the range.
        top: Key,
        /// How many rows a chunk has at most.
        size: u32,
    },
    /// Begins a transaction, takes the share lock on a span, and gives its keys.
    BeginSpan {
        /// The table's name.
        table: Name,
        /// The span of its clustered key.
        span: Span,
        /// How many keys are given at most.
        size: u32,
    },
    /// INSERT IGNORE of one converted row.
    CopyRow {
        /// The table with the row.
        from: Name,
        /// The table that gets its converted row.
        into: Name,
        /// Where the converted row's values come from.
        map: ColumnMap,
        /// The row's clustered key.
        key: Key,
    },
    /// LOCK TABLES .. WRITE.
    LockTables(Names),
    /// UNLOCK TABLES.
    Unlock,
    /// CREATE TABLE.
    Create(Schema),
    /// DROP TABLE.
    Drop(Name),
    /// RENAME TABLE, all pairs as one.
    Rename(Pairs),
    /// How many events the log has.
    LogEnd,
    /// Events of the log.
    ReadLog {
        /// The number of events before the first that may be given.
        position: u64,
        /// How many are given at most.
        limit: u32,
        /// The tables whose events are given.
        tables: Names,
    },
    /// The tables that exist.
    ShowTables,
    /// The sessions that wait for names of tables exclusively.
    ShowWaiting,
    /// The number that the AUTO_INCREMENT column of a table gets next; 0 where it has no such column.
    ShowCounter(Name),
    /// ALTER TABLE .. AUTO_INCREMENT: the column gets no lesser number than this one next.
    SetCounter {
        /// The table's name.
        table: Name,
        /// The number.
        number: u64,
    },
}

// By hand: crates above then take it as one call, and don't drop each part on each path again. The calls of `drop` have that of
// each type proved once.
impl Drop for Request {
    fn drop(self) {
        match self {
            Request::Do(statement) => drop(statement),
            Request::Ends(table)
            | Request::Drop(table)
            | Request::ShowCounter(table)
            | Request::SetCounter { table, number: _ } => drop(table),
            Request::ChunkEnd {
                table,
                low,
                top,
                size: _,
            } => {
                drop(table);
                drop(low);
                drop(top);
            }
            Request::BeginSpan {
                table,
                span,
                size: _,
            } => {
                drop(table);
                drop(span);
            }
            Request::CopyRow {
                from,
                into,
                map,
                key,
            } => {
                drop(from);
                drop(into);
                drop(map);
                drop(key);
            }
            Request::LockTables(names) => drop(names),
            Request::Create(schema) => drop(schema),
            Request::Rename(pairs) => drop(pairs),
            Request::ReadLog {
                position: _,
                limit: _,
                tables,
            } => drop(tables),
            Request::Begin
            | Request::Commit
            | Request::Rollback
            | Request::Unlock
            | Request::LogEnd
            | Request::ShowTables
            | Request::ShowWaiting => {}
        }
    }
}

impl Duplicate for Request {
    fn copy(&self) -> Result<Request, AllocError> {
        Ok(match self {
            Request::Begin => Request::Begin,
            Request::Commit => Request::Commit,
            Request::Rollback => Request::Rollback,
            Request::Do(statement) => Request::Do(statement.copy()?),
            Request::Ends(table) => Request::Ends(table.copy()?),
            Request::ChunkEnd {
                table,
                low,
                top,
                size,
            } => Request::ChunkEnd {
                table: table.copy()?,
                low: low.copy()?,
                top: top.copy()?,
                size: *size,
            },
            Request::BeginSpan { table, span, size } => Request::BeginSpan {
                table: table.copy()?,
                span: span.copy()?,
                size: *size,
            },
            Request::CopyRow {
                from,
                into,
                map,
                key,
            } => Request::CopyRow {
                from: from.copy()?,
                into: into.copy()?,
                map: map.copy()?,
                key: key.copy()?,
            },
            Request::LockTables(names) => Request::LockTables(names.copy()?),
            Request::Unlock => Request::Unlock,
            Request::Create(schema) => Request::Create(schema.copy()?),
            Request::Drop(name) => Request::Drop(name.copy()?),
            Request::Rename(pairs) => Request::Rename(pairs.copy()?),
            Request::LogEnd => Request::LogEnd,
            Request::ReadLog {
                position,
                limit,
                tables,
            } => Request::ReadLog {
                position: *position,
                limit: *limit,
                tables: tables.copy()?,
            },
            Request::ShowTables => Request::ShowTables,
            Request::ShowWaiting => Request::ShowWaiting,
            Request::ShowCounter(table) => Request::ShowCounter(table.copy()?),
            Request::SetCounter { table, number } => Request::SetCounter {
                table: table.copy()?,
                number: *number,
            },
        })
    }
}

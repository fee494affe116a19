//! What SHOW TABLES and the list of waits show.

ghost use Rattle.std.specs.Prelude.{◌≡◌, IfOk};

use base_values::{Chars, Duplicate, Name, Names, Sequence};
use std::alloc::AllocError;

/// A table that exists.
pub struct TableName {
    /// Its name.
    pub name: Name,
    /// Its comment; empty where it has none.
    pub comment: Chars,
}

// By hand, so that crates above prove it as one call.
impl Drop for TableName {
    fn drop(self) {
        let TableName { name, comment } = self;
        drop(name);
        drop(comment);
    }
}

/// Tables that exist, in byte order of their names.
pub type TableNames = Sequence<TableName>;

/// A session that waits for names of tables exclusively.
pub struct ShownWaiter {
    /// The session whose request waits.
    pub session: u32,
    /// The names, each once, in the order of its request.
    pub names: Names,
    /// The least session that blocks it, or 0 where none does.
    pub by: u32,
}

// By hand, so that crates above prove it as one call.
impl Drop for ShownWaiter {
    fn drop(self) {
        let ShownWaiter {
            names,
            session: _,
            by: _,
        } = self;
        drop(names);
    }
}

/// Sessions that wait, by rising number.
pub type ShownWaiters = Sequence<ShownWaiter>;

impl Duplicate for TableName {
    fn copy(&self) -> Result<TableName, AllocError> {
        Ok(TableName {
            name: self.name.copy()?,
            comment: self.comment.copy()?,
        })
    }
}

impl Duplicate for ShownWaiter {
    fn copy(&self) -> Result<ShownWaiter, AllocError> {
        Ok(ShownWaiter {
            session: self.session,
            names: self.names.copy()?,
            by: self.by,
        })
    }
}

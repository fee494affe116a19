//! A row lock, a set of them, and the answer to who asks for one.

ghost use Rattle.std.specs.Prelude.{◌≡◌, map, IfOk};
ghost use Rattle.server_locks.specs.RowLocks.LockTable.{held_by};
ghost use Rattle.server_locks.specs.RowLocks.Points.{is_point};

use base_values::{Bound, Duplicate, Name, Sequence, Span};
use std::alloc::{AllocError, Global};

/// A lock on the values of one key of a table that lie in a span, whether or not rows have them.
pub struct Lock {
    /// The table's name.
    pub table: Name,
    /// The key's place among the table's unique keys.
    pub key: usize,
    /// The key's values that are locked.
    pub span: Span,
    /// Whether the lock is exclusive (X), or else shared (S).
    pub exclusive: bool,
}

// By hand, so that crates above prove it as one call.
impl Drop for Lock {
    fn drop(self) {
        let Lock {
            table,
            key: _,
            span,
            exclusive: _,
        } = self;
        drop(table);
        drop(span);
    }
}

impl Duplicate for Lock {
    fn copy(&self) -> Result<Lock, AllocError> {
        Ok(Lock {
            table: self.table.copy()?,
            key: self.key,
            span: self.span.copy()?,
            exclusive: self.exclusive,
        })
    }
}

/// The locks that one call needs.
pub type LockSet = Sequence<Lock>;

/// A lock and the session that holds it.
#[derive(Drop)]
pub struct HeldLock {
    /// The session that holds it.
    pub session: u32,
    /// What it holds.
    pub lock: Lock,
}

/// Copies of the locks, held by the session.
pub fn held_by(alloc: Global, session: u32, set: &[Lock]) -> Result<Vec<HeldLock>, AllocError>
    ensures { IfOk result (λ held. held.items ≡ map (held_by session) set.now) }
{
    let mut held = Vec::with_capacity(alloc, set.len())?;
    for lock in set {
        held.push(HeldLock {
            session,
            lock: lock.copy()?,
        })?;
    }
    Ok(held)
}

/// Whether the span is that of one key.
pub fn is_point(span: &Span) -> bool
    ensures { result ≡ is_point span.now }
{
    match &span.low {
        Bound::Closed(low) => match &span.high {
            Bound::Closed(high) => low.cmp(high).is_eq(),
            _ => false,
        },
        _ => false,
    }
}

/// What is answered to a session that asks for locks.
#[derive(Clone, Copy, PartialEq, Eq)]
pub enum LockAnswer {
    /// It has them all now.
    Granted,
    /// It has none of them now, and must wait.
    Waits {
        /// The least session that refuses one of them.
        by: u32,
    },
}

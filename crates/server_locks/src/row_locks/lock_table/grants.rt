//! Locks that are granted.

ghost use Rattle.std.specs.Prelude.{◌≡◌, ◌+◌, ◌<◌, ◌^◌, ◌++◌, map, reverse, vec_len, IfOk};
ghost use Rattle.server_locks.specs.RowLocks.LockTable.{held_by};
ghost use Rattle.server_locks.specs.RowLocks.LockLists.{AreConsistent, HasRoom, locks_in};
ghost use Rattle.server_locks.specs.RowLocks.Releases.{slots_in, locks_before};

use crate::row_locks::lock::{HeldLock, Lock, held_by};
use crate::row_locks::lock_table::granted_lock::GrantedLock;
use crate::row_locks::lock_table::lock_lists::LockLists;
use std::alloc::{AllocError, Global};

/// Copies of the locks, held by the session, the last one first.
pub fn held_back(alloc: Global, session: u32, set: &[Lock]) -> Result<Vec<HeldLock>, AllocError>
    ensures { IfOk result (λ held. reverse held.items ≡ map (held_by session) set.now) }
{
    let mut held = held_by(alloc, session, set)?;
    held.reverse();
    Ok(held)
}

/// Puts in locks that are granted after all others, the last of the list first, with grants from this number on.
pub fn put_all(lists: &mut LockLists, added: Vec<HeldLock>, first: usize)
    requires consistent { AreConsistent first lists.old }
    requires room { HasRoom (vec_len added) lists.old }
    requires numbers { first + vec_len added < 2 ^ 64 }
    ensures consistent { AreConsistent (first + vec_len added) lists.new }
    ensures locks { locks_in lists.new ≡ locks_in lists.old ++ reverse added.items }
    ensures before { locks_before first (slots_in lists.new) ≡ locks_in lists.old }
{
    let mut left = added;
    let mut grant = first;
    while let Some(held) = left.pop() {
        lists.put(GrantedLock { grant, held });
        grant += 1;
    }
}

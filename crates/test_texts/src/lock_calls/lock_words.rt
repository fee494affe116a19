//! Row locks in words.

use base_values::{Name, Sequence};
use server_locks::row_locks::{Lock, LockSet};
use std::alloc::Global;
use test_lines::{CallFault, place_of, span_of};

/// A lock by its strength, its key and its span, as `X`, `t.0` and `[5,5]`.
pub fn lock_of(alloc: Global, strength: &str, key: &str, span: &str) -> Result<Lock, CallFault> {
    let (table, key) = key.split_once('.').ok_or(CallFault::Unread)?;
    let key = place_of(key)?;
    let span = span_of(alloc, span)?;
    Ok(Lock {
        table: Name::new(alloc, table)?,
        key,
        span,
        exclusive: strength == "X",
    })
}

fn set_of(alloc: Global, words: &[&str]) -> Result<LockSet, CallFault> {
    let mut set = Sequence::new(alloc);
    let mut rest = words;
    while let [strength, key, span, following @ ..] = rest {
        set.push(lock_of(alloc, strength, key, span)?)?;
        rest = following;
    }
    Ok(set)
}

/// Locks of three words each.
pub fn set_in(alloc: Global, words: &str) -> Result<LockSet, CallFault> {
    let words: Vec<&str> = words.split(' ').collect(alloc)?;
    set_of(alloc, words.as_slice())
}

//! The names that a session was granted, by their places in the table of names.

ghost use Rattle.std.specs.Prelude.{◌≡◌, not, map, filter, IfOk};
ghost use Rattle.server_sessions.specs.LiveSessions.KeptSessions.{grant_of};

use base_values::Name;
use server_locks::metadata_locks::MetaLocks;
use std::alloc::{AllocError, Global};

/// A name that a session was granted: a handle, and no name. A statement is granted its table's name again and again, and the
/// table of names has it once.
#[derive(Clone, Copy)]
pub struct Grant {
    /// Its place among the names that the table has of the session so.
    pub place: usize,
    /// Whether it was granted exclusively, by LOCK TABLES, or else shared.
    pub exclusive: bool,
}

/// The grant of a name that the session holds so.
fn grant_of(
    table: &MetaLocks,
    number: u32,
    name: &Name,
    exclusive: bool,
) -> Result<Grant, AllocError>
    ensures { IfOk result (λ grant. grant ≡ grant_of table.now.held number exclusive name.now) }
{
    let place = table.place(number, name, exclusive);
    // A count that stands still tells no place.
    if place == usize::MAX {
        return Err(AllocError);
    }
    Ok(Grant { place, exclusive })
}

/// The grants of names that the session holds so.
pub fn grants_of(
    alloc: Global,
    table: &MetaLocks,
    number: u32,
    names: &[Name],
    exclusive: bool,
) -> Result<Vec<Grant>, AllocError>
    ensures { IfOk result (λ grants. grants.items ≡ map (grant_of table.now.held number exclusive) names.now) }
{
    let mut grants = Vec::new(alloc);
    for name in names {
        grants.push(grant_of(table, number, name, exclusive)?)?;
    }
    Ok(grants)
}

/// Leaves those that are exclusive.
pub fn keep_exclusive(granted: &mut Vec<Grant>)
    ensures { granted.new.items ≡ filter (λ grant. grant.exclusive) granted.old.items }
{
    granted.retain(|grant| grant.exclusive);
}

/// Leaves those that are shared.
pub fn keep_shared(granted: &mut Vec<Grant>)
    ensures { granted.new.items ≡ filter (λ grant. not grant.exclusive) granted.old.items }
{
    granted.retain(|grant| !grant.exclusive);
}

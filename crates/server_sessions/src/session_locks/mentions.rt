//! The names of tables that a request mentions.

ghost use Rattle.std.specs.Prelude.{◌≡◌, ◌&&◌, ◌||◌, true, not, [], ◌∷◌, IfOk};
ghost use Rattle.std.specs.List.{list_any};
ghost use Rattle.std.specs.Str.{bytes_eq};
ghost use Rattle.server_locks.specs.MetadataLocks.Grants.{has_name, holds};
ghost use Rattle.server_locks.specs.MetadataLocks.LockTable.{is_own};
ghost use Rattle.server_model.specs.Operations.{table_of};
ghost use Rattle.server_model.specs.States.{is_exclusive, names_in, pair_names, tables_named};

use base_script::Statement;
use base_values::{Duplicate, Name, Names, Sequence};
use server_locks::metadata_locks::MetaLocks;
use server_model::Request;
use std::alloc::{AllocError, Global};
use table_store::Pair;

/// Whether the request needs its names exclusively.
pub fn is_exclusive(request: &Request) -> bool
    ensures { result ≡ is_exclusive request.now }
{
    match request {
        Request::LockTables(_) => true,
        Request::Create(_) => true,
        Request::Drop(_) => true,
        Request::Rename(_) => true,
        Request::SetCounter { .. } => true,
        _ => false,
    }
}

/// The statement's table.
pub fn table_of(statement: &Statement) -> &Name
    ensures { result.now ≡ table_of statement.now }
{
    match statement {
        Statement::Insert { table, .. } => table,
        Statement::Replace { table, .. } => table,
        Statement::Delete { table, .. } => table,
        Statement::Update { table, .. } => table,
        Statement::Select { table, .. } => table,
    }
}

/// Whether the name is among the names.
pub fn is_among(names: &Names, name: &Name) -> bool
    ensures { result ≡ has_name names.now name.now }
{
    names.as_slice().contains(name)
}

/// Whether the name is in one of the pairs.
fn is_in_pairs(pairs: &[Pair], name: &Name) -> bool
    ensures { result ≡ list_any (λ pair. bytes_eq pair.old name.now || bytes_eq pair.new name.now) pairs.now }
{
    pairs
        .iter()
        .any(|pair| pair.old == *name || pair.new == *name)
}

/// Whether the request needs the name exclusively.
#[tactic(auto, using(crate::proofs::SessionLocks::Mentioned::mentions))]
pub fn takes(request: &Request, name: &Name) -> bool
    ensures { result ≡ (is_exclusive request.now && has_name (names_in request.now) name.now) }
{
    match request {
        Request::LockTables(names) => is_among(names, name),
        Request::Create(schema) => schema.name == *name,
        Request::Drop(table) => *table == *name,
        Request::Rename(pairs) => is_in_pairs(pairs.as_slice(), name),
        Request::SetCounter { table, .. } => *table == *name,
        _ => false,
    }
}

/// The list of one name.
fn one_name(alloc: Global, name: &Name) -> Result<Names, AllocError>
    ensures { IfOk result (λ names. names ≡ name.now ∷ []) }
{
    let mut names = Sequence::new(alloc);
    names.push(name.copy()?)?;
    Ok(names)
}

/// The list of two names.
fn two_names(alloc: Global, first: &Name, second: &Name) -> Result<Names, AllocError>
    ensures { IfOk result (λ names. names ≡ first.now ∷ second.now ∷ []) }
{
    let mut names = one_name(alloc, first)?;
    names.push(second.copy()?)?;
    Ok(names)
}

/// All names of the pairs.
fn pair_names(alloc: Global, pairs: &[Pair]) -> Result<Names, AllocError>
    ensures { IfOk result (λ names. names ≡ pair_names pairs.now) }
{
    let mut names = Sequence::new(alloc);
    for pair in pairs {
        names.push(pair.old.copy()?)?;
        names.push(pair.new.copy()?)?;
    }
    Ok(names)
}

/// The names that the request mentions, each as often as it does.
pub fn names_in(alloc: Global, request: &Request) -> Result<Names, AllocError>
    ensures { IfOk result (λ names. names ≡ names_in request.now) }
{
    match request {
        Request::Do(statement) => one_name(alloc, table_of(statement)),
        Request::Ends(table) => one_name(alloc, table),
        Request::ChunkEnd { table, .. } => one_name(alloc, table),
        Request::BeginSpan { table, .. } => one_name(alloc, table),
        Request::CopyRow { from, into, .. } => two_names(alloc, from, into),
        Request::LockTables(names) => names.copy(),
        Request::Create(schema) => one_name(alloc, &schema.name),
        Request::Drop(table) => one_name(alloc, table),
        Request::Rename(pairs) => pair_names(alloc, pairs.as_slice()),
        Request::SetCounter { table, .. } => one_name(alloc, table),
        _ => Ok(Sequence::new(alloc)),
    }
}

/// Whether the session holds the table exclusively, which LOCK TABLES alone does.
fn has_locked(locks: &MetaLocks, number: u32, name: &Name) -> bool
    ensures { result ≡ holds locks.now.held number name.now true }
{
    locks.holds(number, name, true)
}

/// Whether the session hasn't locked one of the tables.
fn any_beyond(locks: &MetaLocks, number: u32, names: &Names) -> bool
    ensures { result ≡ list_any (λ name. not (holds locks.now.held number name true)) names.now }
{
    names
        .as_slice()
        .iter()
        .any(|name| !has_locked(locks, number, name))
}

/// Whether one of the pairs has a table that the session hasn't locked.
fn pairs_beyond(locks: &MetaLocks, number: u32, pairs: &[Pair]) -> bool
    ensures { result ≡ list_any (λ pair. not (holds locks.now.held number pair.old true) || not (holds locks.now.held number pair.new true)) pairs.now }
{
    pairs.iter().any(|pair| {
        !has_locked(locks, number, &pair.old) || !has_locked(locks, number, &pair.new)
    })
}

/// Whether the request names a table that the session hasn't locked.
#[tactic(auto, using(crate::proofs::SessionLocks::Mentioned::mentions))]
fn mentions_other(locks: &MetaLocks, number: u32, request: &Request) -> bool
    ensures { result ≡ list_any (λ name. not (holds locks.now.held number name true)) (tables_named request.now) }
{
    match request {
        Request::Do(statement) => !has_locked(locks, number, table_of(statement)),
        Request::Ends(table) => !has_locked(locks, number, table),
        Request::ChunkEnd { table, .. } => !has_locked(locks, number, table),
        Request::BeginSpan { table, .. } => !has_locked(locks, number, table),
        Request::CopyRow { from, into, .. } => {
            !has_locked(locks, number, from) || !has_locked(locks, number, into)
        }
        Request::LockTables(names) => any_beyond(locks, number, names),
        Request::Create(schema) => !has_locked(locks, number, &schema.name),
        Request::Drop(table) => !has_locked(locks, number, table),
        Request::Rename(pairs) => pairs_beyond(locks, number, pairs.as_slice()),
        Request::ReadLog { tables, .. } => any_beyond(locks, number, tables),
        Request::ShowCounter(table) => !has_locked(locks, number, table),
        Request::SetCounter { table, .. } => !has_locked(locks, number, table),
        _ => false,
    }
}

/// Whether the session holds LOCK TABLES and the request names a table that it hasn't locked.
pub fn is_outside(locks: &MetaLocks, number: u32, request: &Request) -> bool
    ensures { result ≡ (list_any (is_own number true) locks.now.held && list_any (λ name. not (holds locks.now.held number name true)) (tables_named request.now)) }
{
    locks.holds_any(number, true) && mentions_other(locks, number, request)
}

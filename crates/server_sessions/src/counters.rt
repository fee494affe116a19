//! The counters of the tables with an AUTO_INCREMENT column, in the tables' order.

ghost use Rattle.std.specs.Prelude.{◌≡◌, ◌++◌, [], max, if◌then◌else◌, IfOk, OnOk};
ghost use Rattle.server_model.specs.States.{counter_of, counters_from, counters_named, counters_renamed, counters_without, is_counter_of, next_of};

use base_values::gho_schema::Schema;
use base_values::{Duplicate, Name};
use server_model::{Counter, auto_place, first_number};
use std::alloc::{AllocError, Global};
use table_store::Pair;

fn is_counter_of(name: &Name, counter: &Counter) -> bool
    ensures { result ≡ is_counter_of name.now counter.now }
{
    counter.table == *name
}

/// The number that is drawn next from the table of this name; none where it has no counter.
pub fn next_of(counters: &[Counter], name: &Name) -> Option<u64>
    ensures { result ≡ next_of name.now counters.now }
{
    match counters.iter().find(|counter| is_counter_of(name, counter)) {
        Some(counter) => Some(counter.next),
        None => None,
    }
}

fn raise_one(counter: &mut Counter, name: &Name, least: u64)
    ensures { counter.new ≡ (if is_counter_of name.now counter.old then record counter.old { next = max counter.old.next least } else counter.old) }
{
    if is_counter_of(name, counter) && counter.next < least {
        counter.next = least;
    }
}

/// The counter of the table of this name is no less than this number.
pub fn raise(counters: &mut Vec<Counter>, name: &Name, least: u64)
    ensures { counters.new.items ≡ counters_from name.now least counters.old.items }
{
    for counter in counters.iter_mut() {
        raise_one(counter, name, least);
    }
}

/// A copy of the counters.
fn copied(alloc: Global, counters: &[Counter]) -> Result<Vec<Counter>, AllocError>
    ensures { IfOk result (λ copy. copy.items ≡ counters.now) }
{
    let mut copy = Vec::with_capacity(alloc, counters.len())?;
    for counter in counters {
        copy.push(Counter {
            table: counter.table.copy()?,
            next: counter.next,
        })?;
    }
    Ok(copy)
}

/// The counters after CREATE TABLE: a table with an AUTO_INCREMENT column has one.
pub fn counters_with(
    alloc: Global,
    counters: &[Counter],
    schema: &Schema,
) -> Result<Vec<Counter>, AllocError>
    ensures { IfOk result (λ after. after.items ≡ counters.now ++ counter_of (record { schema = schema.now; rows = [] })) }
{
    let mut after = copied(alloc, counters)?;
    if auto_place(schema).is_some() {
        after.push(Counter {
            table: schema.name.copy()?,
            next: first_number(schema),
        })?;
    }
    Ok(after)
}

fn remove(counters: &mut Vec<Counter>, name: &Name)
    ensures { counters.new.items ≡ counters_without name.now counters.old.items }
{
    counters.retain(|counter| !is_counter_of(name, counter));
}

/// The counters after DROP TABLE: the table's is gone.
pub fn counters_without(
    alloc: Global,
    counters: &[Counter],
    name: &Name,
) -> Result<Vec<Counter>, AllocError>
    ensures { IfOk result (λ after. after.items ≡ counters_without name.now counters.now) }
{
    let mut after = copied(alloc, counters)?;
    remove(&mut after, name);
    Ok(after)
}

fn rename_one(counter: &mut Counter, pair: &Pair) -> Result<(), AllocError>
    ensures { OnOk result (counter.new ≡ (if is_counter_of pair.now.old counter.old then record counter.old { table = pair.now.new } else counter.old)) }
{
    if is_counter_of(&pair.old, counter) {
        counter.table = pair.new.copy()?;
    }
    Ok(())
}

fn rename_each(counters: &mut Vec<Counter>, pair: &Pair) -> Result<(), AllocError>
    ensures { OnOk result (counters.new.items ≡ counters_named pair.now.old pair.now.new counters.old.items) }
{
    for counter in counters.iter_mut() {
        rename_one(counter, pair)?;
    }
    Ok(())
}

/// The counters after RENAME TABLE, pair by pair from left to right: a counter goes with its table.
#[tactic(auto, unfolding(server_model::specs::States::counters_renamed))]
pub fn counters_renamed(
    alloc: Global,
    counters: &[Counter],
    pairs: &[Pair],
) -> Result<Vec<Counter>, AllocError>
    ensures { IfOk result (λ after. after.items ≡ counters_renamed pairs.now counters.now) }
{
    let mut after = copied(alloc, counters)?;
    for pair in pairs {
        rename_each(&mut after, pair)?;
    }
    Ok(after)
}

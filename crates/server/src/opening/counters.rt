//! The counters at a server's start.

ghost use Rattle.std.specs.Prelude.{◌≡◌, ◌++◌, max, slice_get, IfOk, OnOk};
ghost use Rattle.std.specs.List.{flat_map};
ghost use Rattle.table_store.specs.Databases.{database};
ghost use Rattle.server_model.specs.States.{after_value, counter_of, start_at};

use base_values::{Duplicate, Row};
use server_model::{Counter, after_value, auto_place, first_number};
use std::alloc::{AllocError, Global};
use std::cmp::max;
use table_store::paged_tables::Tables;
use table_store::paged_tables::row_pages::Table;

/// The greatest of a number, and of one more than the row's value of the column at this place.
fn most_with(most: u64, row: &Row, place: usize) -> u64
    ensures { result ≡ max most (after_value (slice_get row.now place)) }
{
    let next = after_value(row.as_slice().get(place));
    max(most, next)
}

/// Where the table's counter starts, whose AUTO_INCREMENT column is at this place.
fn start_at(table: &Table, place: usize) -> u64
    ensures { result ≡ start_at table.now.table place }
{
    let mut most = first_number(table.schema());
    for row in table.rows() {
        most = most_with(most, row, place);
    }
    most
}

/// Adds the table's counter, where it has an AUTO_INCREMENT column.
fn push_counter(counters: &mut Vec<Counter>, table: &Table) -> Result<(), AllocError>
    ensures { OnOk result (counters.new.items ≡ counters.old.items ++ counter_of table.now.table) }
{
    let Some(place) = auto_place(table.schema()) else {
        return Ok(());
    };
    let name = table.schema().name.copy()?;
    counters.push(Counter {
        table: name,
        next: start_at(table, place),
    })?;
    Ok(())
}

/// The counters of tables with an AUTO_INCREMENT column, in the tables' order.
#[tactic(auto, using(crate::proofs::OpeningCounters::all_tables))]
pub fn counters_of(alloc: Global, tables: &Tables) -> Result<Vec<Counter>, AllocError>
    ensures { IfOk result (λ counters. counters.items ≡ flat_map counter_of (database tables.now)) }
{
    let mut counters = Vec::new(alloc);
    for n in 0..tables.len() {
        push_counter(&mut counters, tables.at(n))?;
    }
    Ok(counters)
}

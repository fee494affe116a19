//! Names of columns and keys: which are one, which are free, and the places that they stand for.

ghost use Rattle.std.specs.Prelude.{◌≡◌, ◌++◌, ◌<◌, length, option_to_list, IfOk, IfSome, OnOk};
ghost use Rattle.base_values.specs.GhoSchema.Names.{same_name};
ghost use Rattle.base_values.specs.SchemaRules.Names.{is_among, names_differ, place_of, places_of, spelled, numbered, free_name, first_column};

use crate::gho_schema::{Places, same_name};
use crate::{Duplicate, Name, Sequence, Shared};
use itoa::Buffer;
use std::alloc::{AllocError, Global};

/// Whether one of the names is this one, whatever the case of letters.
#[tactic(auto, unfolding(crate::specs::SchemaRules::Names::is_among))]
pub fn is_among(names: &[Name], name: &str) -> bool
    ensures { result ≡ is_among names.now name.now }
{
    names.iter().any(|known| same_name(known.as_str().as_bytes(), name.as_bytes()))
}

/// Whether no two of the names are one.
#[tactic(auto, unfolding(crate::specs::SchemaRules::Names::differ_from))]
pub fn names_differ(names: &[Name]) -> bool
    ensures { result ≡ names_differ names.now }
{
    for (i, name) in names.iter().enumerate() {
        if is_among(&names[..i], name.as_str()) {
            return false;
        }
    }
    true
}

#[tactic(auto, unfolding(crate::specs::SchemaRules::Names::place_of))]
fn place_of(names: &[Name], name: &str) -> Option<usize>
    ensures place { result ≡ place_of names.now name.now }
    ensures within { IfSome result (λ place. place < length names.now) }
{
    names.iter().position(|known| same_name(known.as_str().as_bytes(), name.as_bytes()))
}

fn push_place(places: &mut Sequence<usize>, names: &[Name], column: &Name) -> Result<(), AllocError>
    ensures { OnOk result (places.new ≡ places.old ++ option_to_list (place_of names.now column.now)) }
{
    match place_of(names, column.as_str()) {
        Some(place) => places.push(place),
        None => Ok(()),
    }
}

/// The places of a key's columns; one that names no column has none.
#[tactic(auto, unfolding(crate::specs::SchemaRules::Names::places_of))]
pub fn places_of(alloc: Global, names: &[Name], columns: &[Name]) -> Result<Places, AllocError>
    ensures { IfOk result (λ places. places ≡ places_of names.now columns.now) }
{
    let mut places = Sequence::new(alloc);
    for column in columns {
        push_place(&mut places, names, column)?;
    }
    Shared::from_sequence(places)
}

#[tactic(auto, unfolding(crate::specs::SchemaRules::Names::spelled))]
fn spelled(alloc: Global, names: &[Name], name: &str) -> Result<Name, AllocError>
    ensures { IfOk result (λ found. found ≡ spelled names.now name.now) }
{
    for known in names {
        if same_name(known.as_str().as_bytes(), name.as_bytes()) {
            return known.copy();
        }
    }
    Name::new(alloc, name)
}

#[tactic(auto, unfolding(crate::specs::SchemaRules::Names::numbered))]
fn numbered(alloc: Global, base: &str, number: usize) -> Result<Name, AllocError>
    ensures { IfOk result (λ name. name ≡ numbered base.now number) }
{
    if number == 1 {
        return Name::new(alloc, base);
    }
    let mut name = String::from_str(alloc, base)?;
    name.push_str("_")?;
    name.push_str(Buffer::new().format(number))?;
    Name::new(alloc, name.as_str())
}

/// The name of a key without one, where these are taken and its first column has this one.
pub fn free_name(alloc: Global, taken: &[Name], base: &str) -> Result<Name, AllocError>
    ensures { IfOk result (λ name. name ≡ free_name taken.now base.now) }
{
    let mut number = 1;
    for _ in taken {
        let name = numbered(alloc, base, number)?;
        if !is_among(taken, name.as_str()) {
            return Ok(name);
        }
        number += 1;
    }
    numbered(alloc, base, number)
}

/// The name of the first of a key's columns, as the column is spelled; empty where the key has none.
#[tactic(auto, unfolding(crate::specs::SchemaRules::Names::first_column))]
pub fn first_column(alloc: Global, names: &[Name], columns: &[Name]) -> Result<Name, AllocError>
    ensures { IfOk result (λ name. name ≡ first_column names.now columns.now) }
{
    match columns {
        [] => Name::new(alloc, ""),
        [column, ..] => spelled(alloc, names, column.as_str()),
    }
}

//! Where the places of keys are after a column was put in, taken out or moved.

ghost use Rattle.std.specs.Prelude.{◌≡◌, ◌<◌, ◌≤◌, [], ◌∷◌, ◌++◌, option_to_list, filter, IfOk, OnOk};
ghost use Rattle.std.specs.List.{filter_map, AllByRecursion};
ghost use Rattle.sql_change.specs.Places.{opened, closed, place_after, index_after, has_places, keys_after, indexes_after, ArePlaces};

use base_values::gho_schema::{Index, Indexes, Places};
use base_values::{Duplicate, Sequence, Shared};
use std::alloc::{AllocError, Global};

/// What happens to the places of columns.
#[derive(Clone, Copy)]
pub enum PlaceChange {
    /// A column is put in here.
    Added(usize),
    /// The column here is taken out.
    Dropped(usize),
    /// A column is moved.
    Moved {
        /// Where it stood.
        from: usize,
        /// Where it is.
        to: usize,
    },
}

fn opened(at: usize, place: usize) -> usize
    requires { place ≤ 64 }
    ensures { result ≡ opened at place }
{
    if place < at { place } else { place + 1 }
}

fn closed(at: usize, place: usize) -> usize
    ensures { result ≡ closed at place }
{
    if at < place { place - 1 } else { place }
}

#[tactic(auto, unfolding(crate::specs::Places::place_after))]
fn place_after(change: PlaceChange, place: usize) -> Option<usize>
    requires { place ≤ 64 }
    ensures { result ≡ place_after change place }
{
    match change {
        PlaceChange::Added(at) => Some(opened(at, place)),
        PlaceChange::Dropped(at) => {
            if place == at {
                None
            } else {
                Some(closed(at, place))
            }
        }
        PlaceChange::Moved { from, to } => {
            Some(if place == from {
                to
            } else {
                opened(to, closed(from, place))
            })
        }
    }
}

fn push_place(
    places: &mut Sequence<usize>,
    change: PlaceChange,
    place: usize,
) -> Result<(), AllocError>
    requires { place ≤ 64 }
    ensures { OnOk result (places.new ≡ places.old ++ option_to_list (place_after change place)) }
{
    match place_after(change, place) {
        Some(place) => places.push(place),
        None => Ok(()),
    }
}

fn places_after(alloc: Global, change: PlaceChange, places: &[usize]) -> Result<Places, AllocError>
    requires { AllByRecursion (λ place. place < 64) places.now }
    ensures { IfOk result (λ after. after ≡ filter_map (place_after change) places.now) }
{
    let mut after = Sequence::new(alloc);
    for place in places {
        push_place(&mut after, change, *place)?;
    }
    Shared::from_sequence(after)
}

#[tactic(auto, unfolding(crate::specs::Places::index_after))]
fn index_after(alloc: Global, change: PlaceChange, index: &Index) -> Result<Index, AllocError>
    requires { AllByRecursion (λ place. place < 64) index.now.places }
    ensures { IfOk result (λ after. after ≡ index_after change index.now) }
{
    Ok(Index {
        name: index.name.copy()?,
        places: places_after(alloc, change, index.places.as_slice())?,
    })
}

/// The unique keys after the change.
pub fn keys_after(
    alloc: Global,
    change: PlaceChange,
    indexes: &[Index],
) -> Result<Indexes, AllocError>
    requires { ArePlaces 64 indexes.now }
    ensures { IfOk result (λ after. after ≡ keys_after change indexes.now) }
{
    let mut after = Sequence::new(alloc);
    for index in indexes {
        after.push(index_after(alloc, change, index)?)?;
    }
    Shared::from_sequence(after)
}

fn push_index(indexes: &mut Sequence<Index>, index: Index) -> Result<(), AllocError>
    ensures { OnOk result (indexes.new ≡ indexes.old ++ filter has_places (index ∷ [])) }
{
    if index.places.is_empty() {
        Ok(())
    } else {
        indexes.push(index)
    }
}

/// The other indexes after the change, but for those left without columns.
pub fn indexes_after(
    alloc: Global,
    change: PlaceChange,
    indexes: &[Index],
) -> Result<Indexes, AllocError>
    requires { ArePlaces 64 indexes.now }
    ensures { IfOk result (λ after. after ≡ indexes_after change indexes.now) }
{
    let mut after = Sequence::new(alloc);
    for index in indexes {
        push_index(&mut after, index_after(alloc, change, index)?)?;
    }
    Shared::from_sequence(after)
}

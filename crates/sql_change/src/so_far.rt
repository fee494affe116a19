//! The table between two clauses.

ghost use Rattle.std.specs.Prelude.{◌≡◌, ◌≤◌, ◌<◌, length, IfOk};
ghost use Rattle.std.specs.List.{insert, remove, slice_get};
ghost use Rattle.sql_change.specs.Places.{ArePlaces};
ghost use Rattle.sql_change.specs.AlteredSoFar.{places_from, with_columns, origin_of};

use crate::places::{PlaceChange, indexes_after, keys_after};
use base_values::gho_schema::{Column, Columns, Schema};
use base_values::{Duplicate, Sequence, Shared};
use std::alloc::{AllocError, Global};

/// The schema that the clauses so far leave, and where its columns' values come from.
#[derive(Drop)]
pub struct AlteredSoFar {
    /// The schema that the clauses so far leave.
    pub schema: Schema,
    /// The old place of each column; none for one that was added.
    pub origins: Origins,
}

/// Old places of columns, or none, in order.
pub type Origins = Sequence<Option<usize>>;

#[tactic(auto, unfolding(crate::specs::AlteredSoFar::places_from))]
fn old_places(alloc: Global, columns: &[Column]) -> Result<Origins, AllocError>
    ensures { IfOk result (λ origins. origins ≡ places_from 0 columns.now) }
{
    let mut origins = Sequence::new(alloc);
    let mut place = 0;
    for _ in columns {
        origins.push(Some(place))?;
        place += 1;
    }
    Ok(origins)
}

#[tactic(auto, unfolding(crate::specs::AlteredSoFar::with_columns))]
fn with_columns(
    alloc: Global,
    change: PlaceChange,
    schema: &Schema,
    columns: Columns,
) -> Result<Schema, AllocError>
    requires uniques { ArePlaces 64 schema.now.uniques }
    requires indexes { ArePlaces 64 schema.now.indexes }
    ensures { IfOk result (λ new. new ≡ with_columns change schema.now columns) }
{
    Ok(Schema {
        name: schema.name.copy()?,
        columns,
        uniques: keys_after(alloc, change, schema.uniques.as_slice())?,
        indexes: indexes_after(alloc, change, schema.indexes.as_slice())?,
        comment: schema.comment.copy()?,
        start: schema.start,
    })
}

pub(crate) fn inserted<T: Drop>(
    items: Sequence<T>,
    at: usize,
    item: T,
) -> Result<Sequence<T>, AllocError>
    requires { at ≤ length items }
    ensures { IfOk result (λ more. more ≡ insert items at item) }
{
    let mut items = items.into_vec();
    items.insert(at, item)?;
    Ok(Sequence::from_vec(items))
}

pub(crate) fn removed<T: Drop>(items: Sequence<T>, at: usize) -> Sequence<T>
    requires { at < length items }
    ensures { result ≡ remove items at }
{
    let mut items = items.into_vec();
    let _ = items.remove(at);
    Sequence::from_vec(items)
}

pub(crate) fn copied(alloc: Global, origins: &[Option<usize>]) -> Result<Origins, AllocError>
    ensures { IfOk result (λ copy. copy ≡ origins.now) }
{
    let mut copy = Sequence::new(alloc);
    for origin in origins {
        copy.push(*origin)?;
    }
    Ok(copy)
}

pub(crate) fn origin_at(origins: &[Option<usize>], place: usize) -> Option<usize>
    ensures { result ≡ origin_of (slice_get origins.now place) }
{
    match origins.get(place) {
        Some(origin) => *origin,
        None => None,
    }
}

impl AlteredSoFar {
    ghost use Rattle.std.specs.Prelude.{◌≡◌, ◌≤◌, ◌<◌, length, IfOk};
    ghost use Rattle.sql_change.specs.AlteredSoFar.{start, put_in, taken_out, moved_to, Stands};

    /// The table before the first clause.
    pub fn start(alloc: Global, schema: &Schema) -> Result<AlteredSoFar, AllocError>
        ensures { IfOk result (λ standing. standing ≡ start schema.now) }
    {
        let schema = schema.copy()?;
        let origins = old_places(alloc, schema.columns.as_slice())?;
        Ok(AlteredSoFar { schema, origins })
    }

    /// The table with an added column at this place.
    #[tactic(auto, unfolding(crate::specs::AlteredSoFar::put_in))]
    pub fn put_in(
        &self,
        alloc: Global,
        at: usize,
        column: Column,
    ) -> Result<AlteredSoFar, AllocError>
        requires stands { Stands self.now }
        requires within { at ≤ length self.now.schema.columns }
        ensures { IfOk result (λ standing. standing ≡ put_in self.now at column) }
    {
        let columns = inserted(self.schema.columns.to_sequence(alloc)?, at, column)?;
        Ok(AlteredSoFar {
            schema: with_columns(
                alloc,
                PlaceChange::Added(at),
                &self.schema,
                Shared::from_sequence(columns)?,
            )?,
            origins: inserted(copied(alloc, self.origins.as_slice())?, at, None)?,
        })
    }

    /// The table without the column at this place.
    #[tactic(auto, unfolding(crate::specs::AlteredSoFar::taken_out))]
    pub fn taken_out(&self, alloc: Global, at: usize) -> Result<AlteredSoFar, AllocError>
        requires stands { Stands self.now }
        requires within { at < length self.now.schema.columns }
        ensures { IfOk result (λ standing. standing ≡ taken_out self.now at) }
    {
        let columns = removed(self.schema.columns.to_sequence(alloc)?, at);
        Ok(AlteredSoFar {
            schema: with_columns(
                alloc,
                PlaceChange::Dropped(at),
                &self.schema,
                Shared::from_sequence(columns)?,
            )?,
            origins: removed(copied(alloc, self.origins.as_slice())?, at),
        })
    }

    /// The table with this column, which has the values of the one at the first place, at the second.
    #[tactic(auto, unfolding(crate::specs::AlteredSoFar::moved_to))]
    pub fn moved_to(
        &self,
        alloc: Global,
        from: usize,
        to: usize,
        column: Column,
    ) -> Result<AlteredSoFar, AllocError>
        requires stands { Stands self.now }
        requires from { from < length self.now.schema.columns }
        requires to { to < length self.now.schema.columns }
        ensures { IfOk result (λ standing. standing ≡ moved_to self.now from to column) }
    {
        let columns = removed(self.schema.columns.to_sequence(alloc)?, from);
        let columns = inserted(columns, to, column)?;
        let origin = origin_at(self.origins.as_slice(), from);
        let origins = removed(copied(alloc, self.origins.as_slice())?, from);
        let change = PlaceChange::Moved { from, to };
        Ok(AlteredSoFar {
            schema: with_columns(alloc, change, &self.schema, Shared::from_sequence(columns)?)?,
            origins: inserted(origins, to, origin)?,
        })
    }
}

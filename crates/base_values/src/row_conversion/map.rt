//! Where the values of an altered table's columns come from.

ghost use Rattle.std.specs.Prelude.{◌≡◌, IfOk};

use crate::{Duplicate, Kind, Shared, Value};
use std::alloc::AllocError;

/// A new column: what it stores, and of what.
pub struct MapColumn {
    /// The kind of its values.
    pub kind: Kind,
    /// Whether it may be null.
    pub nullable: bool,
    /// Where its values come from.
    pub origin: Origin,
}

// By hand, so that crates above prove it as one call.
impl Drop for MapColumn {
    fn drop(self) {
        let MapColumn {
            origin,
            kind: _,
            nullable: _,
        } = self;
        drop(origin);
    }
}

/// Where a new column's values come from.
pub enum Origin {
    /// The old column at this place, from 0.
    Old(usize),
    /// Nowhere: the column was added, and gets this default.
    Added(Value),
}

// By hand, so that crates above prove it as one call.
impl Drop for Origin {
    fn drop(self) {
        match self {
            Origin::Old(_) => {}
            Origin::Added(value) => drop(value),
        }
    }
}

/// The new columns in order. Copies share them: each row that is copied names its map.
pub type ColumnMap = Shared<MapColumn>;

impl Duplicate for Origin {
    fn copy(&self) -> Result<Origin, AllocError> {
        Ok(match self {
            Origin::Old(place) => Origin::Old(*place),
            Origin::Added(value) => Origin::Added(value.copy()?),
        })
    }
}

impl Duplicate for MapColumn {
    fn copy(&self) -> Result<MapColumn, AllocError> {
        Ok(MapColumn {
            kind: self.kind,
            nullable: self.nullable,
            origin: self.origin.copy()?,
        })
    }
}

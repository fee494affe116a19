//! What a table's columns and keys are.

ghost use Rattle.std.specs.Prelude.{◌≡◌, IfOk};

use crate::gho_schema::clustered::clustered_key;
use crate::{Chars, Duplicate, Kind, Name, Shared, Value};
use std::alloc::AllocError;

/// A table's columns, keys and indexes (MySQL's manual, "CREATE TABLE Statement"). A copy shares them, since each
/// transaction has one of each table to which it writes.
pub struct Schema {
    /// The table's name.
    pub name: Name,
    /// The columns, in order.
    pub columns: Columns,
    /// The unique keys: the PRIMARY KEY first, where there is one, then the others in order of declaration.
    pub uniques: Indexes,
    /// The indexes that aren't unique, in order of declaration.
    pub indexes: Indexes,
    /// The table's comment; empty where none is written.
    pub comment: Chars,
    /// The number at which its AUTO_INCREMENT column starts, where the table option AUTO_INCREMENT is written.
    pub start: Option<u64>,
}

/// A column of a table.
pub struct Column {
    /// The column's name, as it was written.
    pub name: Name,
    /// The kind of its values.
    pub kind: Kind,
    /// Whether it may be null.
    pub nullable: bool,
    /// What a row that names no value for it gets; none where such a row is refused.
    pub default: Option<Value>,
    /// Whether it has AUTO_INCREMENT.
    pub auto: bool,
}

// By hand, so that crates above prove it as one call.
impl Drop for Column {
    fn drop(self) {
        let Column {
            name,
            default,
            kind: _,
            nullable: _,
            auto: _,
        } = self;
        drop(name);
        drop(default);
    }
}

/// A key or an index of a table.
pub struct Index {
    /// The key's name; none exactly for the PRIMARY KEY.
    pub name: Option<Name>,
    /// The places of its columns in the schema, from 0, in the key's order.
    pub places: Places,
}

// By hand, so that crates above prove it as one call.
impl Drop for Index {
    fn drop(self) {
        let Index { name, places } = self;
        drop(name);
        drop(places);
    }
}

/// Columns in order.
pub type Columns = Shared<Column>;

/// Keys or indexes in order.
pub type Indexes = Shared<Index>;

/// Places of a key's columns, from 0.
pub type Places = Shared<usize>;

// By hand, so that crates above prove it as one call.
impl Drop for Schema {
    fn drop(self) {
        let Schema {
            name,
            columns,
            uniques,
            indexes,
            comment,
            start: _,
        } = self;
        drop(name);
        drop(columns);
        drop(uniques);
        drop(indexes);
        drop(comment);
    }
}

impl Schema {
    ghost use Rattle.base_values.specs.GhoSchema.Rows.{key_places, places_at};

    /// The places of the clustered key's columns, in the key's order; none where there is no such key.
    pub fn key_places(&self) -> &[usize]
        ensures { result.now ≡ key_places self.now }
    {
        match clustered_key(self) {
            Some(index) => index.places.as_slice(),
            None => &[],
        }
    }

    /// The places of the columns of a unique key, by its number from 0; none where there is no such key.
    pub fn places_at(&self, key: usize) -> &[usize]
        ensures { result.now ≡ places_at self.now key }
    {
        match self.uniques.as_slice().get(key) {
            Some(index) => index.places.as_slice(),
            None => &[],
        }
    }
}

impl Duplicate for Column {
    fn copy(&self) -> Result<Column, AllocError> {
        Ok(Column {
            name: self.name.copy()?,
            kind: self.kind,
            nullable: self.nullable,
            default: self.default.copy()?,
            auto: self.auto,
        })
    }
}

impl Duplicate for Index {
    fn copy(&self) -> Result<Index, AllocError> {
        Ok(Index {
            name: self.name.copy()?,
            places: self.places.copy()?,
        })
    }
}

impl Duplicate for Schema {
    fn copy(&self) -> Result<Schema, AllocError> {
        Ok(Schema {
            name: self.name.copy()?,
            columns: self.columns.copy()?,
            uniques: self.uniques.copy()?,
            indexes: self.indexes.copy()?,
            comment: self.comment.copy()?,
            start: self.start,
        })
    }
}

//! Rows in order of their clustered key.

ghost use Rattle.std.specs.Prelude.{◌≡◌, [], ◌++◌, option_to_list, slice_get, Some, None, IfOk, OnOk, OnErr, IsErrOf};
ghost use Rattle.base_values.specs.KeyOrder.{compare_keys};
ghost use Rattle.base_values.specs.GhoSchema.Rows.{key_of, put};

use crate::gho_schema::schema::Places;
use crate::mysql_errors::ER_DUP_ENTRY;
use crate::{Duplicate, Key, Row, Rows, Sequence, Shared, Value, Values};
use std::alloc::{AllocError, AllocFailed, Global};
use std::collections::BTreeMap;
use std::marker::Model;
use thiserror::Error;

/// Why a row isn't put among the others.
#[derive(Debug, Drop, Error)]
pub enum PutFault {
    /// A row has its key already: MySQL's `ER_DUP_ENTRY`.
    #[error("a row has this key already")]
    Repeated,
    /// There is no memory for one more row.
    #[error("out of memory")]
    Memory,
}

impl PutFault {
    ghost use Rattle.base_values.specs.GhoSchema.KeyedRows.{put_number};

    /// The number of MySQL's error; want of memory is no error of MySQL's here.
    pub fn number(&self) -> Option<u16>
        ensures { result ≡ put_number self.now }
    {
        match self {
            PutFault::Repeated => Some(ER_DUP_ENTRY),
            PutFault::Memory => None,
        }
    }
}

impl From<AllocError> for PutFault {
    ghost use Rattle.base_values.specs.declared.gho_schema.keyed.PutFault.TheVariants.{Memory};

    ghost from_gives = { λ _ e. e ≡ Memory };

    fn from(_error: AllocError) -> PutFault {
        PutFault::Memory
    }
}

impl<T: Drop> From<AllocFailed<T>> for PutFault {
    ghost use Rattle.base_values.specs.declared.gho_schema.keyed.PutFault.TheVariants.{Memory};

    ghost from_gives = { λ _ e. e ≡ Memory };

    fn from(_error: AllocFailed<T>) -> PutFault {
        PutFault::Memory
    }
}

/// Rows in order of the key at the same places of each, no two with one key.
#[derive(Drop)]
pub struct KeyedRows {
    places: Places,
    // A map and no sort: the contract of a map is a function of its rows, that of a sort leaves the order of ties open.
    entries: BTreeMap<Key, Row>,
}

impl Model for KeyedRows {
    ghost use Rattle.std.specs.Prelude.{◌≡◌};
    ghost use Rattle.base_values.specs.GhoSchema.KeyedRows.{Keyed, with_keys, rows_of};

    ghost Value = { Keyed };

    ghost view = { λ k. record { places = k.places; rows = rows_of k.entries.entries } };

    ghost invariant = { λ k. k.entries.entries ≡ with_keys k.places (rows_of k.entries.entries) };
}

fn push_at(key: &mut Values, place: usize, row: &[Value]) -> Result<(), AllocError>
    ensures { OnOk result (key.new ≡ key.old ++ option_to_list (slice_get row.now place)) }
{
    match row.get(place) {
        Some(value) => key.push(value.copy()?),
        None => Ok(()),
    }
}

/// A row's key: its values at these places.
#[tactic(auto, unfolding(crate::specs::GhoSchema::Rows::key_of))]
pub fn key_of(alloc: Global, places: &[usize], row: &[Value]) -> Result<Key, AllocError>
    ensures { IfOk result (λ key. key ≡ key_of places.now row.now) }
{
    let mut key = Sequence::new(alloc);
    for place in places {
        push_at(&mut key, *place, row)?;
    }
    Shared::from_sequence(key)
}

impl KeyedRows {
    /// No rows, with their keys at these places.
    pub fn new(alloc: Global, places: Places) -> KeyedRows
        ensures places { result.places ≡ places }
        ensures rows { result.rows ≡ [] }
    {
        KeyedRows {
            places,
            entries: BTreeMap::new(alloc),
        }
    }

    /// Puts a row in its place.
    pub fn put(&mut self, alloc: Global, row: Row) -> Result<(), PutFault>
        ensures ok { OnOk result (put self.old.places row self.old.rows ≡ Some self.new.rows) }
        ensures repeated { IsErrOf result PutFault.Repeated → put self.old.places row self.old.rows ≡ None }
        ensures err { OnErr result (self.new.rows ≡ self.old.rows) }
        ensures places { self.new.places ≡ self.old.places }
    {
        let key = key_of(alloc, self.places.as_slice(), row.as_slice())?;
        if self.entries.contains_key(&key) {
            return Err(PutFault::Repeated);
        }
        self.entries.insert(key, row)?;
        Ok(())
    }

    /// The rows in order of their keys.
    pub fn into_rows(self, alloc: Global) -> Result<Rows, AllocError>
        ensures { IfOk result (λ rows. rows ≡ self.rows) }
    {
        Ok(Sequence::from_vec(self.entries.into_values().collect(alloc)?))
    }
}

//! Keys in order, each once.

ghost use Rattle.std.specs.Prelude.{◌≡◌, ◌≤◌, ◌<◌, ◌+◌, ◌^◌, true, [], length, IfOk, OnOk};
ghost use Rattle.base_values.specs.GhoSchema.Rows.{key_places};
ghost use Rattle.server_model.specs.Rows.{stands};
ghost use Rattle.server_seen.specs.Stored.{counted};
ghost use Rattle.server_seen.specs.Written.{with_key};

use base_values::gho_schema::{Index, Places, Schema};
use base_values::{Duplicate, Key, Sequence, Shared};
use std::alloc::{AllocError, Global};
use std::marker::Model;
use table_store::paged_tables::row_pages::Table;

/// Keys of one table in order, each once. Contracts see besides how many values a key has at most, and for how many more
/// keys there is room.
pub struct KeySet {
    table: Table,
}

// By hand, so that crates above prove it as one call.
impl Drop for KeySet {
    fn drop(self) {
        let KeySet { table } = self;
        drop(table);
    }
}

impl Model for KeySet {
    ghost use Rattle.std.specs.Prelude.{length};
    ghost use Rattle.base_values.specs.GhoSchema.Rows.{key_places};
    ghost use Rattle.server_seen.specs.Stored.{StoredKeys, IsKeyTable};

    ghost Value = { StoredKeys };

    ghost view = { λ s. record { keys = s.table.table.rows; width = length (key_places s.table.table.schema); spare = s.table.spare } };

    ghost invariant = { λ s. IsKeyTable s.table.table };
}

/// Whether the places are 0, 1 ..
fn are_first(places: &[usize]) -> bool
    ensures { result ≡ true → places.now ≡ counted 0 (length places.now) }
{
    for (n, place) in places.iter().enumerate() {
        if *place != n {
            return false;
        }
    }
    true
}

/// The places 0, 1 .. of a key's values.
fn first_places(alloc: Global, width: usize) -> Result<Places, AllocError>
    ensures { IfOk result (λ places. places ≡ counted 0 width) }
{
    let mut places = Sequence::new(alloc);
    for place in 0..width {
        places.push(place)?;
    }
    Shared::from_sequence(places)
}

/// A schema whose clustered key is at these places. It shares all else with another one.
#[tactic(auto, unfolding(base_values::specs::GhoSchema::ClusteredKey::clustered_among))]
fn with_places(alloc: Global, other: &Schema, places: Places) -> Result<Schema, AllocError>
    ensures { IfOk result (λ schema. key_places schema ≡ places) }
{
    let index = Index { name: None, places };
    Ok(Schema {
        name: other.name.copy()?,
        columns: other.columns.copy()?,
        uniques: Shared::from_vec(vec![in alloc; index]?)?,
        indexes: other.indexes.copy()?,
        comment: other.comment.copy()?,
        start: None,
    })
}

/// A schema whose clustered key is at the places 0, 1 .. of the values of a table's keys. Where the table's key is of its
/// first columns, it is the table's own, which is shared.
fn schema_of_keys(alloc: Global, schema: &Schema) -> Result<Schema, AllocError>
    ensures { IfOk result (λ of_keys. key_places of_keys ≡ counted 0 (length (key_places schema.now))) }
{
    if are_first(schema.key_places()) {
        return schema.copy();
    }
    let places = first_places(alloc, schema.key_places().len())?;
    with_places(alloc, schema, places)
}

impl KeySet {
    /// No keys of a table of this schema.
    pub fn new(alloc: Global, schema: &Schema) -> Result<KeySet, AllocError>
        ensures keys { IfOk result (λ set. set.keys ≡ []) }
        ensures width { IfOk result (λ set. set.width ≡ length (key_places schema.now)) }
    {
        let schema = schema_of_keys(alloc, schema)?;
        Ok(KeySet {
            table: Table::new(alloc, schema),
        })
    }

    /// Whether the key is one of them.
    pub fn contains(&self, key: &Key) -> bool
        ensures { result ≡ stands key.now self.now.keys }
    {
        match self.table.get(key) {
            Some(_) => true,
            None => false,
        }
    }

    /// Makes room for `n` more keys.
    pub fn reserve(&mut self, n: usize) -> Result<(), AllocError>
        ensures keys { self.new.keys ≡ self.old.keys }
        ensures width { self.new.width ≡ self.old.width }
        ensures ok { OnOk result (n ≤ self.new.spare) }
        ensures spare { self.old.spare ≤ self.new.spare }
    {
        self.table.reserve(n)
    }

    /// Puts a key in its place, unless it is there already.
    pub fn insert(&mut self, key: Key)
        requires width { length key ≤ self.old.width }
        requires room { 0 < self.old.spare }
        ensures keys { self.new.keys ≡ with_key key self.old.keys }
        ensures width { self.new.width ≡ self.old.width }
        ensures spare { self.old.spare ≤ self.new.spare + 1 }
    {
        // For the prover: `schema` says that the rows, which are the keys, are in order.
        let _schema = self.table.schema();
        match self.table.get(&key) {
            Some(_) => {}
            None => self.table.put(key),
        }
    }
}

//! A map by name.

ghost use Rattle.std.specs.Prelude.{◌≡◌, ◌<◌, ◌≤◌, ◌+◌, ◌++◌, [], ◌∷◌, false, length, remove, set, slice_get, Some, IfOk, OnOk, OnErr, IsOk};
ghost use Rattle.std.specs.Borrow.{sem};
ghost use Rattle.std.specs.String.{string_bytes};
ghost use Rattle.table_store.specs.NameMap.Loans.{lends_value};
ghost use Rattle.table_store.specs.NameMap.NameMaps.{has_name, names_before};

use indexmap::IndexMap;
use std::alloc::{AllocError, Global};
use std::marker::Model;

/// Values under different names, in order of adding. A name is found by its hash.
#[derive(Drop)]
pub struct NameMap<T> {
    // The key is a copy of the name, since a look-up by a text is what the kit has for keys that own a text.
    entries: IndexMap<String, T>,
}

impl<T> Model for NameMap<T> {
    ghost use Rattle.indexmap.specs.IndexMap.{spare};
    ghost use Rattle.table_store.specs.NameMap.NameMaps.{NamedValues, named_values};

    ghost Value = { NamedValues T };

    ghost view = { λ m. named_values m.entries.entries (spare m.entries) };
}

impl<T> NameMap<T> {
    /// No values.
    pub fn new(alloc: Global) -> NameMap<T>
        ensures names { result.names ≡ [] }
        ensures values { result.values ≡ [] }
    {
        NameMap {
            entries: IndexMap::new(alloc),
        }
    }

    /// How many values there are.
    pub fn len(&self) -> usize
        ensures names { result ≡ length self.now.names }
        ensures values { result ≡ length self.now.values }
    {
        self.entries.len()
    }

    /// How many names come before this one; where it isn't there, how many there are.
    pub fn place_of(&self, name: &str) -> usize
        ensures { result ≡ names_before name.now self.now.names }
    {
        match self.entries.get_index_of(name) {
            Some(place) => place,
            None => self.entries.len(),
        }
    }

    /// The value at this place, counted from 0.
    pub fn at(&self, place: usize) -> &T
        requires { place < length self.now.values }
        ensures { slice_get self.now.values place ≡ Some result.now }
    {
        &self.entries[place]
    }

    /// The value at this place, to be changed.
    pub fn at_mut(&mut self, place: usize) -> &mut T
        requires { place < length self.old.values }
        ensures* writes_back { sem 𝓛 (lends_value T.row self.entry place result) }
        ensures value { slice_get self.old.values place ≡ Some result.now }
    {
        &mut self.entries[place]
    }

    /// A copy of a text, as a name to be added.
    pub fn copy_name(&self, name: &str) -> Result<String, AllocError>
        ensures { IfOk result (λ copy. string_bytes copy ≡ name.now) }
    {
        String::from_str(*self.entries.allocator(), name)
    }

    /// Makes room for `count` more values.
    pub fn reserve(&mut self, count: usize) -> Result<(), AllocError>
        ensures names { self.new.names ≡ self.old.names }
        ensures values { self.new.values ≡ self.old.values }
        ensures ok { OnOk result (count ≤ self.new.spare) }
        ensures spare { self.old.spare ≤ self.new.spare }
    {
        self.entries.reserve(count)
    }
}

impl<T: Drop> NameMap<T> {
    /// Adds a value of a new name after the others.
    pub fn add(&mut self, name: String, value: T) -> Result<(), AllocError>
        requires new { has_name (string_bytes name) self.old.names ≡ false }
        ensures names { OnOk result (self.new.names ≡ self.old.names ++ string_bytes name ∷ []) }
        ensures values { OnOk result (self.new.values ≡ self.old.values ++ value ∷ []) }
        ensures same_names { OnErr result (self.new.names ≡ self.old.names) }
        ensures same_values { OnErr result (self.new.values ≡ self.old.values) }
        ensures succeeds { 0 < self.old.spare → IsOk result }
        ensures spare { self.old.spare ≤ self.new.spare + 1 }
    {
        match self.entries.insert(name, value) {
            Ok(_) => Ok(()),
            Err(_) => Err(AllocError),
        }
    }

    /// Takes the value at this place out.
    pub fn take(&mut self, place: usize) -> T
        requires { place < length self.old.values }
        ensures value { slice_get self.old.values place ≡ Some result }
        ensures names { self.new.names ≡ remove self.old.names place }
        ensures values { self.new.values ≡ remove self.old.values place }
        ensures spare { self.old.spare ≤ self.new.spare }
    {
        match self.entries.shift_remove_index(place) {
            Some((_, value)) => value,
            None => unreachable!(),
        }
    }

    /// Gives the value at this place a new name, and answers the one that it had. It takes no memory, but the room for one
    /// value.
    pub fn rename(&mut self, place: usize, name: String) -> String
        requires within { place < length self.old.values }
        requires new { has_name (string_bytes name) self.old.names ≡ false }
        requires room { 0 < self.old.spare }
        ensures name { slice_get self.old.names place ≡ Some (string_bytes result) }
        ensures names { self.new.names ≡ set self.old.names place (string_bytes name) }
        ensures values { self.new.values ≡ self.old.values }
        ensures spare { self.old.spare ≤ self.new.spare + 1 }
    {
        match self.entries.shift_remove_index(place) {
            Some((old, value)) => match self.entries.shift_insert(place, name, value) {
                Ok(_) => old,
                Err(_) => unreachable!(),
            },
            None => unreachable!(),
        }
    }
}

//! A row's key, value by value, without making it.

ghost use Rattle.std.specs.Prelude.{◌≡◌};
ghost use Rattle.std.specs.Iterator.{YieldsFirstRef, item_count};
ghost use Rattle.base_values.specs.GhoSchema.Rows.{key_of};

use base_values::Value;
use std::marker::Model;

/// The values of a row at places. Contracts see those that are left.
#[derive(Drop)]
pub struct KeyValues<'a> {
    places: &'a [usize],
    row: &'a [Value],
}

impl<'a> Model for KeyValues<'a> {
    ghost use Rattle.std.specs.Prelude.{List};
    ghost use Rattle.base_values.specs.declared.value.Value.{Value as Item};
    ghost use Rattle.base_values.specs.GhoSchema.Rows.{key_of};

    ghost Value = { List Item };

    ghost view = { λ k. key_of k.places.now k.row.now };
}

impl<'a> KeyValues<'a> {
    /// The values of the row at these places, in their order.
    pub fn new(places: &'a [usize], row: &'a [Value]) -> KeyValues<'a>
        ensures { result ≡ key_of places.now row.now }
    {
        KeyValues { places, row }
    }
}

impl<'a> Iterator for KeyValues<'a> {
    type Item = &'a Value;

    ghost next_gives = { YieldsFirstRef (λ values. values) };

    ghost remaining = { item_count (λ values. values) };

    #[tactic(auto, unfolding(base_values::specs::GhoSchema::Rows::key_of))]
    fn next(&mut self) -> Option<&'a Value> {
        while let Some((place, places)) = self.places.split_first() {
            self.places = places;
            if let Some(value) = self.row.get(*place) {
                return Some(value);
            }
        }
        None
    }
}

//! The key of a row, read from the row.

ghost use Rattle.std.specs.Prelude.{◌≡◌};
ghost use Rattle.std.specs.Iterator.{YieldsFirstRef, item_count};
ghost use Rattle.base_values.specs.GhoSchema.Rows.{key_of};

use base_values::Value;
use std::marker::Model;

/// The values of a row in some columns. Contracts see those that are left.
#[derive(Drop)]
pub struct RowKey<'a> {
    columns: &'a [usize],
    values: &'a [Value],
}

impl<'a> Model for RowKey<'a> {
    ghost use Rattle.std.specs.Prelude.{List};
    ghost use Rattle.base_values.specs.declared.value.Value.{Value as Item};
    ghost use Rattle.base_values.specs.GhoSchema.Rows.{key_of};

    ghost Value = { List Item };

    ghost view = { λ key. key_of key.columns.now key.values.now };
}

impl<'a> RowKey<'a> {
    /// The key that `columns` make of the row `values`, column by column, in their order; a column past the row's end gives nothing.
    pub fn new(columns: &'a [usize], values: &'a [Value]) -> RowKey<'a>
        ensures { result ≡ key_of columns.now values.now }
    {
        RowKey { columns, values }
    }
}

impl<'a> Iterator for RowKey<'a> {
    type Item = &'a Value;

    ghost next_gives = { YieldsFirstRef (λ left. left) };

    ghost remaining = { item_count (λ left. left) };

    #[tactic(auto, unfolding(base_values::specs::GhoSchema::Rows::key_of))]
    fn next(&mut self) -> Option<&'a Value> {
        while let Some((column, following)) = self.columns.split_first() {
            self.columns = following;
            if let Some(value) = self.values.get(*column) {
                return Some(value);
            }
        }
        None
    }
}

//! A table's columns and keys, sorted out of the items in which they are written.

ghost use Rattle.std.specs.Prelude.{◌≡◌, [], ◌∷◌, ◌++◌, IfOk, OnOk};
ghost use Rattle.sql_create.specs.Parts.{no_parts, own_primary, own_key, with_item, parts_of};

use crate::written::{Item, Items, WrittenColumn, WrittenKey};
use base_values::{Duplicate, Names, Sequence};
use sql_grammar::KeyText;
use std::alloc::{AllocError, Global};

/// The parts of a table.
#[derive(Drop)]
pub struct Parts {
    /// Its columns, in order.
    pub columns: Sequence<WrittenColumn>,
    /// The columns of each PRIMARY KEY.
    pub primaries: Sequence<Names>,
    /// The other keys, in order.
    pub keys: Sequence<WrittenKey>,
}

fn no_parts(alloc: Global) -> Parts
    ensures { result ≡ no_parts }
{
    Parts {
        columns: Sequence::new(alloc),
        primaries: Sequence::new(alloc),
        keys: Sequence::new(alloc),
    }
}

/// The column's name alone.
fn own_name(alloc: Global, column: &WrittenColumn) -> Result<Names, AllocError>
    ensures { IfOk result (λ names. names ≡ column.now.name ∷ []) }
{
    let mut names = Sequence::new(alloc);
    names.push(column.name.copy()?)?;
    Ok(names)
}

fn push_own_primary(
    alloc: Global,
    primaries: &mut Sequence<Names>,
    column: &WrittenColumn,
) -> Result<(), AllocError>
    ensures { OnOk result (primaries.new ≡ primaries.old ++ own_primary column.now) }
{
    if column.attributes.is_primary {
        primaries.push(own_name(alloc, column)?)?;
    }
    Ok(())
}

fn push_own_key(
    alloc: Global,
    keys: &mut Sequence<WrittenKey>,
    column: &WrittenColumn,
) -> Result<(), AllocError>
    ensures { OnOk result (keys.new ≡ keys.old ++ own_key column.now) }
{
    if column.attributes.is_unique {
        keys.push(WrittenKey {
            is_unique: true,
            text: KeyText {
                name: None,
                columns: own_name(alloc, column)?,
            },
        })?;
    }
    Ok(())
}

fn with_item(alloc: Global, parts: Parts, item: Item) -> Result<Parts, AllocError>
    ensures { IfOk result (λ more. more ≡ with_item parts item) }
{
    let Parts {
        mut columns,
        mut primaries,
        mut keys,
    } = parts;
    match item {
        Item::Column(column) => {
            push_own_primary(alloc, &mut primaries, &column)?;
            push_own_key(alloc, &mut keys, &column)?;
            columns.push(column)?;
        }
        Item::Primary(columns) => primaries.push(columns)?,
        Item::Key(key) => keys.push(key)?,
    }
    Ok(Parts {
        columns,
        primaries,
        keys,
    })
}

/// The parts that the items are.
#[tactic(auto, unfolding(crate::specs::Parts::parts_of))]
pub fn parts_of(alloc: Global, items: Items) -> Result<Parts, AllocError>
    ensures { IfOk result (λ parts. parts ≡ parts_of items) }
{
    let mut parts = no_parts(alloc);
    for item in items.into_vec() {
        parts = with_item(alloc, parts, item)?;
    }
    Ok(parts)
}

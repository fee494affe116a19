//! The names of a table's keys.

ghost use Rattle.std.specs.Prelude.{◌≡◌, IfOk};
ghost use Rattle.sql_create.specs.Keys.{key_name, no_keys, with_key, named_keys};

use crate::written::WrittenKey;
use base_values::schema_rules::{first_column, free_name};
use base_values::{Duplicate, Name, Names, Sequence};
use sql_grammar::KeyText;
use std::alloc::{AllocError, Global};

/// Keys that all have names.
#[derive(Drop)]
pub struct NamedKeys {
    /// Their names, in order.
    pub names: Names,
    /// The keys, each with its name.
    pub keys: Sequence<WrittenKey>,
}

fn key_name(
    alloc: Global,
    names: &[Name],
    taken: &[Name],
    columns: &[Name],
    written: &Option<Name>,
) -> Result<Name, AllocError>
    ensures { IfOk result (λ name. name ≡ key_name names.now taken.now columns.now written.now) }
{
    match written {
        Some(name) => name.copy(),
        None => {
            let base = first_column(alloc, names, columns)?;
            free_name(alloc, taken, base.as_str())
        }
    }
}

fn with_key(
    alloc: Global,
    names: &[Name],
    before: NamedKeys,
    key: WrittenKey,
) -> Result<NamedKeys, AllocError>
    ensures { IfOk result (λ more. more ≡ with_key names.now before key) }
{
    let NamedKeys {
        names: mut taken,
        mut keys,
    } = before;
    let WrittenKey { is_unique, text } = key;
    let KeyText {
        name: written,
        columns,
    } = text;
    let name = key_name(alloc, names, taken.as_slice(), columns.as_slice(), &written)?;
    taken.push(name.copy()?)?;
    keys.push(WrittenKey {
        is_unique,
        text: KeyText {
            name: Some(name),
            columns,
        },
    })?;
    Ok(NamedKeys { names: taken, keys })
}

/// The keys, each with a name.
#[tactic(auto, unfolding(crate::specs::Keys::named_keys))]
pub(crate) fn named_keys(
    alloc: Global,
    names: &[Name],
    keys: Sequence<WrittenKey>,
) -> Result<NamedKeys, AllocError>
    ensures { IfOk result (λ named. named ≡ named_keys names.now keys) }
{
    let mut named = NamedKeys {
        names: Sequence::new(alloc),
        keys: Sequence::new(alloc),
    };
    for key in keys.into_vec() {
        named = with_key(alloc, names, named, key)?;
    }
    Ok(named)
}

//! What columns store of their defaults.

ghost use Rattle.std.specs.Prelude.{◌≡◌, Result, Ok, Err};
ghost use Rattle.base_values.specs.SchemaRules.Defaults.{stored_default, value_size, default_size, defaults_fit};
ghost use Rattle.base_values.specs.Faults.{Answers};

use crate::gho_schema::Column;
use crate::{Kind, StoreFault, Value, store};
use itoa::Buffer;
use std::alloc::Global;

/// What a column of the kind has for the DEFAULT that is written, or why it refuses it.
pub fn stored_default(
    alloc: Global,
    kind: Kind,
    nullable: bool,
    written: &Option<Value>,
) -> Result<Option<Value>, StoreFault>
    ensures { Answers (λ default. default) result (stored_default kind nullable written.now) }
{
    match written {
        Some(value) => match store(alloc, value, kind, nullable) {
            Ok(value) => Ok(Some(value)),
            Err(fault) => Err(fault),
        },
        None => Ok(if nullable { Some(Value::Null) } else { None }),
    }
}

fn value_size(value: &Value) -> usize
    ensures { result ≡ value_size value.now }
{
    match value {
        Value::Null => 0,
        Value::Num(number) => Buffer::new().format(*number).len(),
        Value::Text(text) => text.as_str().len(),
        Value::Blob(blob) => blob.as_slice().len(),
    }
}

fn default_size(default: &Option<Value>) -> usize
    ensures { result ≡ default_size default.now }
{
    match default {
        Some(value) => value_size(value),
        None => 0,
    }
}

/// Whether the defaults of the columns together have at most 4,096 bytes.
#[tactic(auto, unfolding(crate::specs::SchemaRules::Defaults::defaults_fit))]
pub fn defaults_fit(columns: &[Column]) -> bool
    ensures { result ≡ defaults_fit columns.now }
{
    let mut room = DEFAULT_LIMIT;
    for column in columns {
        let size = default_size(&column.default);
        if size > room {
            return false;
        }
        room -= size;
    }
    true
}

const DEFAULT_LIMIT: usize = 4096;

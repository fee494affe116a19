//! Values, keys and rows.

ghost use Rattle.std.specs.Prelude.{◌≡◌, IfOk};

use crate::duplicate::Duplicate;
use crate::sequence::Sequence;
use crate::shared::Shared;
use crate::text::Chars;
use std::alloc::AllocError;

/// Bytes in order. Copies share them.
pub type Bytes = Shared<u8>;

/// A literal, or what a column holds.
pub enum Value {
    /// NULL.
    Null,
    /// A whole number.
    Num(i128),
    /// A text.
    Text(Chars),
    /// Bytes.
    Blob(Bytes),
}

// By hand, so that crates above prove it as one call.
impl Drop for Value {
    fn drop(self) {
        match self {
            Value::Null | Value::Num(_) => {}
            Value::Text(chars) => drop(chars),
            Value::Blob(bytes) => drop(bytes),
        }
    }
}

impl Duplicate for Value {
    fn copy(&self) -> Result<Value, AllocError> {
        Ok(match self {
            Value::Null => Value::Null,
            Value::Num(number) => Value::Num(*number),
            Value::Text(chars) => Value::Text(chars.copy()?),
            Value::Blob(bytes) => Value::Blob(bytes.copy()?),
        })
    }
}

/// Values as they are gathered.
pub type Values = Sequence<Value>;

/// The values of a key's columns, in the key's order.
pub type Key = Shared<Value>;

/// The values of a table's columns, in the schema's order.
pub type Row = Shared<Value>;

/// Keys in order.
pub type Keys = Sequence<Key>;

/// Rows in order.
pub type Rows = Sequence<Row>;

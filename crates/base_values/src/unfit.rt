//! Why a column refuses a value.

ghost use Rattle.std.specs.Prelude.{◌≡◌};

use crate::Fault;
use crate::mysql_errors::{
    ER_BAD_NULL_ERROR, ER_DATA_TOO_LONG, ER_TRUNCATED_WRONG_VALUE_FOR_FIELD,
    ER_WARN_DATA_OUT_OF_RANGE,
};

/// Why a column refuses a value, each with MySQL's error.
#[derive(Clone, Copy, Debug)]
pub enum Unfit {
    /// `ER_BAD_NULL_ERROR`: the column can't be null.
    Null,
    /// `ER_WARN_DATA_OUT_OF_RANGE`: the number is out of the column's range.
    Range,
    /// `ER_DATA_TOO_LONG`: the text or the bytes are longer than the column's length.
    Length,
    /// `ER_TRUNCATED_WRONG_VALUE_FOR_FIELD`: the value isn't one of the column's kind, nor converted to it.
    Kind,
}

impl Unfit {
    ghost use Rattle.base_values.specs.StoredValues.{error_number};

    /// The number of its error.
    pub fn number(self) -> u16
        ensures { result ≡ error_number self }
    {
        match self {
            Unfit::Null => ER_BAD_NULL_ERROR,
            Unfit::Range => ER_WARN_DATA_OUT_OF_RANGE,
            Unfit::Length => ER_DATA_TOO_LONG,
            Unfit::Kind => ER_TRUNCATED_WRONG_VALUE_FOR_FIELD,
        }
    }
}

/// Why `store` or `seek` gives no value: the column refuses it, or there is no memory.
pub type StoreFault = Fault<Unfit>;

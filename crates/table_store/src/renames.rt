//! Other names for tables.

ghost use Rattle.std.specs.Prelude.{◌≡◌, IfOk};

use base_values::mysql_errors::{ER_NO_SUCH_TABLE, ER_TABLE_EXISTS_ERROR};
use base_values::{Duplicate, Fault, Name, Sequence};
use std::alloc::AllocError;
use thiserror::Error;

/// A table's name, and the one that it gets.
#[derive(Drop)]
pub struct Pair {
    /// The table's name.
    pub old: Name,
    /// The name that it gets.
    pub new: Name,
}

/// Pairs of names in order.
pub type Pairs = Sequence<Pair>;

impl Duplicate for Pair {
    fn copy(&self) -> Result<Pair, AllocError> {
        Ok(Pair {
            old: self.old.copy()?,
            new: self.new.copy()?,
        })
    }
}

/// Why MySQL renames no table.
#[derive(Clone, Copy, Debug, PartialEq, Eq, Error)]
pub enum NotRenamed {
    /// At its pair, a table of the new name exists already.
    #[error("a table of the new name stands already")]
    Exists,
    /// At its pair, no table of the old name exists.
    #[error("no table of the old name stands")]
    Missing,
}

impl NotRenamed {
    ghost use Rattle.table_store.specs.Databases.{rename_number};

    /// The refusal's number.
    pub fn number(self) -> u16
        ensures { result ≡ rename_number self }
    {
        match self {
            NotRenamed::Exists => ER_TABLE_EXISTS_ERROR,
            NotRenamed::Missing => ER_NO_SUCH_TABLE,
        }
    }
}

/// Why no table gets another name: it is refused, or there is no memory.
pub type RenameFault = Fault<NotRenamed>;

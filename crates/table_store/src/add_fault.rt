//! Why a table isn't added.

ghost use Rattle.std.specs.Prelude.{◌≡◌};

use base_values::mysql_errors::ER_TABLE_EXISTS_ERROR;
use std::alloc::{AllocError, AllocFailed};
use thiserror::Error;

/// Why a table isn't added.
#[derive(Debug, Drop, Error)]
pub enum AddFault {
    /// A table of its name exists already: MySQL's `ER_TABLE_EXISTS_ERROR`.
    #[error("a table of this name exists already")]
    Exists,
    /// There is no memory for one more table.
    #[error("out of memory")]
    Memory,
}

impl AddFault {
    ghost use Rattle.table_store.specs.Databases.{add_number};

    /// The number of MySQL's error; want of memory is no error of MySQL's here.
    pub fn number(&self) -> Option<u16>
        ensures { result ≡ add_number self.now }
    {
        match self {
            AddFault::Exists => Some(ER_TABLE_EXISTS_ERROR),
            AddFault::Memory => None,
        }
    }
}

impl From<AllocError> for AddFault {
    ghost use Rattle.table_store.specs.declared.add_fault.AddFault.TheVariants.{Memory};

    ghost from_gives = { λ _ e. e ≡ Memory };

    fn from(_error: AllocError) -> AddFault {
        AddFault::Memory
    }
}

impl<T: Drop> From<AllocFailed<T>> for AddFault {
    ghost use Rattle.table_store.specs.declared.add_fault.AddFault.TheVariants.{Memory};

    ghost from_gives = { λ _ e. e ≡ Memory };

    fn from(_error: AllocFailed<T>) -> AddFault {
        AddFault::Memory
    }
}

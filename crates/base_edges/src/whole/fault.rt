//! Why a text isn't read or given as a whole.

ghost use Rattle.std.specs.Prelude.{◌≡◌};
ghost use Rattle.base_edges.specs.declared.whole.fault.ReadFault.TheVariants.{Memory};

use std::alloc::{AllocError, AllocFailed};
use thiserror::Error;

/// Why a source isn't read to its end.
#[derive(Debug, Drop, Error)]
pub enum ReadFault {
    /// The source failed.
    #[error("the input can't be read")]
    Source,
    /// There is no memory for the bytes.
    #[error("out of memory")]
    Memory,
}

impl From<AllocError> for ReadFault {
    ghost from_gives = { λ _ e. e ≡ Memory };

    fn from(_error: AllocError) -> ReadFault {
        ReadFault::Memory
    }
}

impl<T: Drop> From<AllocFailed<T>> for ReadFault {
    ghost from_gives = { λ _ e. e ≡ Memory };

    fn from(_error: AllocFailed<T>) -> ReadFault {
        ReadFault::Memory
    }
}

/// The sink failed before it had the whole text.
#[derive(Debug, Drop, Error)]
#[error("the output can't be written")]
pub struct SinkFault;

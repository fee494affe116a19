//! Why bytes encode no event.

ghost use Rattle.std.specs.Prelude.{◌≡◌};
ghost use Rattle.server_log.specs.declared.fault.DecodeFault.TheVariants.{Memory};

use std::alloc::{AllocError, AllocFailed};
use thiserror::Error;

/// Why some bytes begin with no event.
#[derive(Clone, Copy, Debug, Error)]
pub enum DecodeFault {
    /// The bytes end before the tag, the length or the body does.
    #[error("the bytes end within an event")]
    Cut,
    /// No change has this tag.
    #[error("no change has this tag")]
    BadTag,
    /// The parts don't end just at the body's end, or a count is out of its range.
    #[error("the parts of an event don't fill its body")]
    BadLength,
    /// A value or the name is none that an event can have.
    #[error("a value or a name is none")]
    BadValue,
    /// There is no memory for the event.
    #[error("out of memory")]
    Memory,
}

impl From<AllocError> for DecodeFault {
    ghost from_gives = { λ _ e. e ≡ Memory };

    fn from(_error: AllocError) -> DecodeFault {
        DecodeFault::Memory
    }
}

impl<T: Drop> From<AllocFailed<T>> for DecodeFault {
    ghost from_gives = { λ _ e. e ≡ Memory };

    fn from(_error: AllocFailed<T>) -> DecodeFault {
        DecodeFault::Memory
    }
}

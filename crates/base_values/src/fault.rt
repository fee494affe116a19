//! Why a call gives nothing.

ghost use Rattle.std.specs.Prelude.{◌≡◌};
ghost use Rattle.base_values.specs.declared.fault.Fault.TheVariants.{Memory};
ghost use Rattle.base_values.specs.Faults.{Because, IfRefusal};

use std::alloc::{AllocError, AllocFailed};
use std::fmt::Debug;
use thiserror::Error;

/// Why a call gives nothing: what it was given is refused, or memory ran out.
#[derive(Debug, Drop, Error)]
pub enum Fault<R: Debug> {
    /// It is refused, and why.
    #[error("refused: {0:?}")]
    Refused(R),
    /// There is no memory for the result.
    #[error("out of memory")]
    Memory,
}

impl<R: Debug> From<AllocError> for Fault<R> {
    ghost from_gives = { λ _ e. e ≡ Memory };

    fn from(_error: AllocError) -> Fault<R> {
        Fault::Memory
    }
}

impl<T: Drop, R: Debug> From<AllocFailed<T>> for Fault<R> {
    ghost from_gives = { λ _ e. e ≡ Memory };

    fn from(_error: AllocFailed<T>) -> Fault<R> {
        Fault::Memory
    }
}

/// The same answer, in which the reason to refuse is put into that of a larger text, or of a larger call. This is `map_err` for
/// a fault: that memory ran out stays what it is.
pub fn because<T, R: Debug, S: Debug, F: FnOnce(R) -> S>(
    answer: Result<T, Fault<R>>,
    reason: F,
) -> Result<T, Fault<S>>
    requires { IfRefusal answer (F.pre reason) }
    ensures { Because (F.post reason) answer result }
{
    match answer {
        Ok(value) => Ok(value),
        Err(Fault::Refused(smaller)) => Err(Fault::Refused(reason(smaller))),
        Err(Fault::Memory) => Err(Fault::Memory),
    }
}

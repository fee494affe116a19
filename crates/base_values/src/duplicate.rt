//! Copies that may want memory.

ghost use Rattle.std.specs.Prelude.{◌≡◌, IfOk};

use std::alloc::AllocError;

/// Plain data that can be copied whole. Unlike `Clone`, it says what a copy is: an equal value.
pub trait Duplicate: Drop {
    /// A value equal to this one, or `AllocError` where there is no memory for it.
    fn copy(&self) -> Result<Self, AllocError>
        ensures { IfOk result (λ copy. copy ≡ self.now) };
}

impl<T: Duplicate> Duplicate for Option<T> {
    fn copy(&self) -> Result<Option<T>, AllocError> {
        Ok(match self {
            Some(value) => Some(value.copy()?),
            None => None,
        })
    }
}

impl Duplicate for u8 {
    fn copy(&self) -> Result<u8, AllocError> {
        Ok(*self)
    }
}

impl Duplicate for usize {
    fn copy(&self) -> Result<usize, AllocError> {
        Ok(*self)
    }
}

//! Equal copies of values that own memory.
ghost use Rattle.std.specs.Prelude.{◌≡◌, IfOk};

use crate::Memory;

/// A value of which an equal one, with memory of its own, can be made.
pub trait Copies: Drop {
    /// An equal value.
    fn copy(&self) -> Result<Self, Memory>
        ensures { IfOk result (λ it. it ≡ self.now) };
}

impl Copies for u32 {
    fn copy(&self) -> Result<u32, Memory> {
        Ok(*self)
    }
}

impl<T: Copies> Copies for Option<T> {
    fn copy(&self) -> Result<Option<T>, Memory> {
        match self {
            None => Ok(None),
            Some(value) => Ok(Some(value.copy()?)),
        }
    }
}

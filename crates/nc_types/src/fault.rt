//! Why a text has no canonical text.
ghost use Rattle.std.specs.Prelude.{◌≡◌};
ghost use Rattle.nc_types.specs.declared.fault.TypeFault.TheVariants.{Memory as NoMemory};

use nc_names::Memory;
use std::alloc::AllocError;

/// Why `canonical` gives no text.
#[derive(Clone, Copy, PartialEq, Eq)]
pub enum TypeFault {
    /// The text is no value of the type (RFC 7950 9).
    NotInType,
    /// No memory was found.
    Memory,
}

impl From<Memory> for TypeFault {
    ghost from_gives = { λ _ fault. fault ≡ NoMemory };

    fn from(_: Memory) -> TypeFault {
        TypeFault::Memory
    }
}

impl From<AllocError> for TypeFault {
    ghost from_gives = { λ _ fault. fault ≡ NoMemory };

    fn from(_: AllocError) -> TypeFault {
        TypeFault::Memory
    }
}

//! What a call of the outside may answer in place of its value.
ghost use Rattle.std.specs.Prelude.{◌≡◌};
ghost use Rattle.nc_outside.specs.declared.fault.FileFault.TheVariants.{Memory as FileMemory};

use nc_names::Memory;
use thiserror::Error;

/// The outside did not do what it was asked: a read or a write was refused. It comes only where the
/// count of faults of the object rose in the call.
#[derive(Clone, Copy, Debug, PartialEq, Eq)]
pub struct Failed;

/// Why a file or a folder was not handed in.
#[derive(Clone, Copy, Debug, PartialEq, Eq, Error)]
pub enum FileFault {
    /// The files could not be read. It comes only where the count of faults rose in the call.
    #[error("the files could not be read")]
    Failed,
    /// No memory was found for the answer.
    #[error("out of memory")]
    Memory,
}

impl From<Memory> for FileFault {
    ghost from_gives = { λ _ fault. fault ≡ FileMemory };

    fn from(_: Memory) -> FileFault {
        FileFault::Memory
    }
}

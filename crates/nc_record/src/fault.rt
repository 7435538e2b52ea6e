//! Why a body is not read.
ghost use Rattle.std.specs.Prelude.{◌≡◌};
ghost use Rattle.nc_record.specs.declared.fault.RecordFault.TheVariants.{Memory as NoMemory};

use nc_names::Memory;

/// Why the body of a record is not read.
#[derive(Clone, Copy)]
pub enum RecordFault {
    /// It spells no configuration of the schema.
    Unreadable,
    /// No memory was found.
    Memory,
}

impl From<Memory> for RecordFault {
    ghost from_gives = { λ _ fault. fault ≡ NoMemory };

    fn from(_: Memory) -> RecordFault {
        RecordFault::Memory
    }
}

//! Why a file is not opened.
ghost use Rattle.std.specs.Prelude.{◌≡◌};
ghost use Rattle.nc_journal.specs.declared.fault.JournalFault.TheVariants.{DiskFault, Memory as NoMemory};

use nc_names::Memory;
use nc_outside::Failed;
use thiserror::Error;

/// Why a file is not opened.
#[derive(Clone, Copy, PartialEq, Eq, Debug, Error)]
pub enum JournalFault {
    /// A call of the disk failed. It comes only where the count of faults rose.
    #[error("the disk failed")]
    DiskFault,
    /// The file has no reading. The place, counted from 0, is that of the first byte that is not the mark's,
    /// of the slot that names no area, or of the gate after the last whole record; or the size of the file,
    /// where it ends before its areas or within the header of the live one.
    #[error("damaged at {at}")]
    Damaged { at: u64 },
    /// The live area begins with another header. The number is that of the first module that differs or that
    /// one of the two lacks, counted from 0, or the number of modules where only the features differ.
    #[error("other header at {at}")]
    OtherHeader { at: u64 },
    /// No memory was found.
    #[error("out of memory")]
    Memory,
}

impl From<Failed> for JournalFault {
    ghost from_gives = { λ _ fault. fault ≡ DiskFault };

    fn from(_: Failed) -> JournalFault {
        JournalFault::DiskFault
    }
}

impl From<Memory> for JournalFault {
    ghost from_gives = { λ _ fault. fault ≡ NoMemory };

    fn from(_: Memory) -> JournalFault {
        JournalFault::Memory
    }
}

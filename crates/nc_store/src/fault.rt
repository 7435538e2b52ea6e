//! Why a store is not opened.
ghost use Rattle.std.specs.Prelude.{◌≡◌, min, ◌-◌, ◌^◌};
ghost use Rattle.nc_store.specs.Opening.{fault_by};

use nc_journal::JournalFault;
use thiserror::Error;

/// Why a store is not opened.
#[derive(Clone, Copy, PartialEq, Eq, Debug, Error)]
pub enum StoreFault {
    /// A call of the disk failed. It comes only where the count of faults rose.
    #[error("the disk failed")]
    DiskFault,
    /// The file has no reading. The place, counted from 0, is that which the journal tells, or the gate of
    /// the last record, where that spells no valid configuration.
    #[error("damaged at {at}")]
    Damaged { at: u64 },
    /// The store is one of other modules or features. The number is that of the first module that differs
    /// or that one of the two lacks, counted from 0, or the number of modules where only the features
    /// differ.
    #[error("other modules at {place}")]
    OtherModules { place: u32 },
    /// No memory was found.
    #[error("out of memory")]
    Memory,
}

// A number of four bytes, the highest where there is none.
fn narrow(number: u64) -> u32
    ensures { result ≡ min number (2 ^ 32 - 1) }
{
    number.min(u32::MAX as u64) as u32
}

/// The fault of a store that the fault of its journal is.
pub(crate) fn fault_of(fault: JournalFault) -> StoreFault
    ensures { result ≡ fault_by fault }
{
    match fault {
        JournalFault::DiskFault => StoreFault::DiskFault,
        JournalFault::Damaged { at } => StoreFault::Damaged { at },
        JournalFault::OtherHeader { at } => StoreFault::OtherModules { place: narrow(at) },
        JournalFault::Memory => StoreFault::Memory,
    }
}

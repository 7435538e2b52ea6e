//! Why a text is no path.
ghost use Rattle.std.specs.Prelude.{◌≡◌};
ghost use Rattle.nc_path_places.specs.declared.fault.PathFault.TheVariants.{Memory as NoMemory};

use nc_names::Memory;

/// Why a path text gives no path.
#[derive(Clone, Copy, PartialEq, Eq)]
pub enum PathFault {
    /// It names none. `at` is the place, in bytes from 0, of the first byte that no path of the schema has
    /// there, or the length of the text; at most 4,294,967,295.
    BadPath { at: u32 },
    /// No memory was found.
    Memory,
}

impl From<Memory> for PathFault {
    ghost from_gives = { λ _ fault. fault ≡ NoMemory };

    fn from(_: Memory) -> PathFault {
        PathFault::Memory
    }
}

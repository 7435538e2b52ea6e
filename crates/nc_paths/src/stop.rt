//! Why a reading stops.
ghost use Rattle.std.specs.Prelude.{◌≡◌};
ghost use Rattle.nc_paths.specs.declared.stop.Stop.TheVariants.{Memory as NoMemory};

use nc_names::Memory;

/// Why a text is not read.
#[derive(Clone, Copy, PartialEq, Eq, Debug)]
pub enum Stop {
    /// It is no such text.
    Refused,
    /// Want of memory.
    Memory,
}

impl From<Memory> for Stop {
    ghost from_gives = { λ _ stop. stop ≡ NoMemory };

    fn from(_: Memory) -> Stop {
        Stop::Memory
    }
}

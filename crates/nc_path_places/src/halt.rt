//! Why a text is not read on.
ghost use Rattle.std.specs.Prelude.{◌≡◌};
ghost use Rattle.nc_path_places.specs.declared.halt.Halt.TheVariants.{Memory as NoMemory};

use nc_names::Memory;

/// Why a text is not read on.
#[derive(Clone, Copy)]
pub(crate) enum Halt {
    /// No path goes on where so many bytes of the text are left.
    Here(usize),
    /// Want of memory.
    Memory,
}

impl From<Memory> for Halt {
    ghost from_gives = { λ _ halt. halt ≡ NoMemory };

    fn from(_: Memory) -> Halt {
        Halt::Memory
    }
}

//! Why modules give no schema.
ghost use Rattle.std.specs.Prelude.{◌≡◌};
ghost use Rattle.nc_yang.specs.declared.fault.CompileFault.TheVariants.{Memory as NoMemory};

use nc_names::Memory;
use nc_yang_statements::ModuleWhy;

/// Why modules give no schema.
#[derive(Clone, Copy, PartialEq, Eq)]
pub enum CompileFault {
    /// A rule is broken, or a limit passed, in the file of that number, counted from 0, at that line, counted
    /// from 1.
    Module {
        file: u32,
        line: u32,
        why: ModuleWhy,
    },
    /// No memory was found.
    Memory,
}

impl From<Memory> for CompileFault {
    ghost from_gives = { λ _ e. e ≡ NoMemory };

    fn from(_: Memory) -> CompileFault {
        CompileFault::Memory
    }
}

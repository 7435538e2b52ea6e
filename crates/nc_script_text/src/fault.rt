//! Why a text is no script.
ghost use Rattle.std.specs.Prelude.{◌≡◌};
ghost use Rattle.nc_script_text.specs.declared.fault.LineFault.TheVariants.{Memory as LineMemory};
ghost use Rattle.nc_script_text.specs.declared.fault.ScriptTextFault.TheVariants.{Memory as TextMemory};

use nc_names::Memory;

/// Why a text is no script.
#[derive(Clone, Copy)]
pub enum ScriptTextFault {
    /// A line is no step.
    Bad {
        /// The number of the first such line, from 1. The bytes that a step sends belong to its line.
        line: u64,
    },
    /// Want of memory.
    Memory,
}

impl From<Memory> for ScriptTextFault {
    ghost from_gives = { λ _ fault. fault ≡ TextMemory };

    fn from(_: Memory) -> ScriptTextFault {
        ScriptTextFault::Memory
    }
}

/// Why a line is no step.
#[derive(Clone, Copy)]
pub(crate) enum LineFault {
    /// It is none.
    Bad,
    /// Want of memory.
    Memory,
}

impl From<Memory> for LineFault {
    ghost from_gives = { λ _ fault. fault ≡ LineMemory };

    fn from(_: Memory) -> LineFault {
        LineFault::Memory
    }
}

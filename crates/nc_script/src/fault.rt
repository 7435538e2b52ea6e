//! Why a script is not done.
ghost use Rattle.std.specs.Prelude.{◌≡◌};
ghost use Rattle.nc_script.specs.declared.fault.ScriptFault.TheVariants.{Memory as ScriptMemory};
ghost use Rattle.nc_script.specs.declared.fault.StepFault.TheVariants.{Memory as StepMemory};

use nc_names::Memory;

/// Why a script is not done to its end. Steps count from 1.
#[derive(Clone, Copy)]
pub enum ScriptFault {
    /// A step begins a connection that was begun before, or means one that was not begun or that the script
    /// has ended. The steps before it are done.
    BadStep {
        /// The step.
        n: u64,
    },
    /// A step needs an entry for which the machine has no number any more.
    Spent {
        /// The step.
        n: u64,
    },
    /// Want of memory.
    Memory,
}

impl From<Memory> for ScriptFault {
    ghost from_gives = { λ _ fault. fault ≡ ScriptMemory };

    fn from(_: Memory) -> ScriptFault {
        ScriptFault::Memory
    }
}

/// Why a step is not done.
#[derive(Clone, Copy, Debug)]
pub(crate) enum StepFault {
    /// Its connection cannot do it.
    Bad,
    /// The machine has no number for an entry.
    Spent,
    /// Want of memory.
    Memory,
}

impl From<Memory> for StepFault {
    ghost from_gives = { λ _ fault. fault ≡ StepMemory };

    fn from(_: Memory) -> StepFault {
        StepFault::Memory
    }
}

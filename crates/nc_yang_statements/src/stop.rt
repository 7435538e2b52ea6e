//! Why a pass over modules gives nothing.

use nc_names::Memory;

/// Why a pass over modules gives nothing.
#[derive(Clone, Copy, Debug, PartialEq, Eq)]
pub enum Stop<F> {
    /// A rule is broken, or a limit passed.
    Broken(F),
    /// Memory ran out.
    Memory,
}

impl<F> From<Memory> for Stop<F> {
    ghost use Rattle.std.specs.Prelude.{◌≡◌};
    ghost use Rattle.nc_yang_statements.specs.declared.stop.Stop.TheVariants.{Memory as NoMemory};

    ghost from_gives = { λ _ stop. stop ≡ NoMemory };

    fn from(_: Memory) -> Stop<F> {
        Stop::Memory
    }
}

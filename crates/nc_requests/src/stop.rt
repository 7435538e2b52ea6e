//! Why a reading stops.
use nc_names::Memory;
use nc_protocol::Cause;

/// Why a reading stops.
#[derive(Debug, Drop)]
pub(crate) enum Stop {
    /// The request is refused.
    Refused(Cause),
    /// Want of memory.
    Memory,
}

impl From<Memory> for Stop {
    ghost use Rattle.std.specs.Prelude.{◌≡◌};
    ghost use Rattle.nc_requests.specs.declared.stop.Stop.TheVariants.{Memory as StopMemory};

    ghost from_gives = { λ _ e. e ≡ StopMemory };

    fn from(_: Memory) -> Stop {
        Stop::Memory
    }
}

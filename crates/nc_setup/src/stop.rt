//! Why a text is no initial configuration.
ghost use Rattle.std.specs.Prelude.{◌≡◌};
ghost use Rattle.nc_setup.specs.declared.stop.Stop.TheVariants.{Memory as StopMemory};

use nc_names::Memory;
use nc_protocol::Cause;

/// Why a text is no initial configuration.
#[derive(Debug, Drop)]
pub enum Stop {
    /// It is no XML from that place on, or has another root, which is the place 0.
    Unread { at: u64 },
    /// It has no reading as data of the schema, or is not valid, for this cause.
    Refused(Cause),
    /// No memory was found.
    Memory,
}

impl From<Memory> for Stop {
    ghost from_gives = { λ _ stop. stop ≡ StopMemory };

    fn from(_: Memory) -> Stop {
        Stop::Memory
    }
}

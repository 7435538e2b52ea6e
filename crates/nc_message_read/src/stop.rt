//! Faults of a message.
ghost use Rattle.std.specs.Prelude.{◌≡◌};

use nc_message::Why;
use nc_names::Memory;

/// Where reading stopped: how many bytes there are from there on, and why.
#[derive(Clone, Copy)]
pub(crate) struct Stop {
    pub(crate) left: usize,
    pub(crate) why: Why,
}

/// Why no tree was read.
#[derive(Clone, Copy, PartialEq, Eq)]
pub enum MessageFault {
    /// The bytes spell no tree: how many bytes the longest beginning of whole tokens that fit has, and why no
    /// more fits.
    Malformed {
        /// The place, in bytes from the message's begin.
        at: u64,
        /// Why no more fits.
        why: Why,
    },
    /// No memory was found.
    Memory,
}

impl From<Memory> for MessageFault {
    ghost use Rattle.nc_message_read.specs.declared.stop.MessageFault.TheVariants.{Memory as MessageMemory};

    ghost from_gives = { λ _ e. e ≡ MessageMemory };

    fn from(_: Memory) -> MessageFault {
        MessageFault::Memory
    }
}

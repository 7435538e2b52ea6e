//! Why no peer was read.
ghost use Rattle.std.specs.Prelude.{◌≡◌};
ghost use Rattle.nc_peer.specs.declared.fault.PeerFault.TheVariants.{Memory as PeerMemory};

use nc_names::Memory;

/// Why no peer was read.
#[derive(Clone, Copy)]
pub enum PeerFault {
    /// The bytes are no beginning of a peer's line.
    BadPeer {
        /// The place of the byte at which they stop to be one, from 0.
        at: u32,
    },
    /// The input ended before the line did.
    InputEnded,
    /// The source failed.
    ReadFault,
    /// Want of memory.
    Memory,
}

impl From<Memory> for PeerFault {
    ghost from_gives = { λ _ e. e ≡ PeerMemory };

    fn from(_: Memory) -> PeerFault {
        PeerFault::Memory
    }
}

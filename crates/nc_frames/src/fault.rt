//! Why a stream gives no further message.
ghost use Rattle.std.specs.Prelude.{◌≡◌};
ghost use Rattle.nc_frames.specs.declared.fault.FrameFault.TheVariants.{Memory as FrameMemory};

use nc_names::Memory;
use thiserror::Error;

/// Why `Frames` answers no message. Places are counted from the session's first byte, and stay at
/// 2^64 - 1 where they are larger.
#[derive(Clone, Copy, Debug, PartialEq, Eq, Error)]
pub enum FrameFault {
    /// The byte at this place is the first that no chunked stream has there (RFC 6242 4.2).
    #[error("bad frame at {at}")]
    BadFrame { at: u64 },
    /// A message is longer than `MESSAGE_LIMIT`. With the end-of-message mark the place is that of the
    /// first byte past the limit; in chunks it is that of the LF after the size that goes past it.
    #[error("too big at {at}")]
    TooBig { at: u64 },
    /// No memory was found. Nothing of the stream is lost.
    #[error("out of memory")]
    Memory,
}

impl From<Memory> for FrameFault {
    ghost from_gives = { λ _ e. e ≡ FrameMemory };

    fn from(_: Memory) -> FrameFault {
        FrameFault::Memory
    }
}

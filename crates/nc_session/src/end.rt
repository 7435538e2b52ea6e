//! How a session ends.
ghost use Rattle.std.specs.Prelude.{◌≡◌};
ghost use Rattle.nc_session.specs.Serves as serves;
ghost use Rattle.nc_session.specs.declared.end.SessionEnd.TheVariants.{Memory as EndMemory};

use nc_message::Why;
use nc_names::Memory;

/// Why the client's first message is no hello that the server takes (RFC 6241 8.1).
#[derive(Clone, Copy, Debug, PartialEq, Eq)]
pub enum HelloFault {
    /// It spells no tree.
    NotRead,
    /// It is no `hello` with one list of capabilities.
    NotHello,
    /// It has a session-id, which the server alone sends.
    HasSessionId,
    /// It has neither version of the protocol.
    NoBase,
}

/// Why the bytes of a message spell no request, and where that shows, counted from their first.
#[derive(Clone, Copy)]
pub struct BadMessage {
    /// The place.
    pub at: u64,
    /// Why no more fits there.
    pub why: Why,
}

/// How a session ended. Places are those of bytes, counted from 0.
#[derive(Clone, Copy, Debug, PartialEq, Eq)]
pub enum SessionEnd {
    /// Its close-session was done and answered (RFC 6241 7.8).
    Closed,
    /// The source gave its end, also within a message.
    InputEnded,
    /// The client's first message is no hello that the server takes.
    BadHello {
        /// Why not.
        why: HelloFault,
    },
    /// The bytes are not in chunks (RFC 6242 4.2).
    BadFrame {
        /// The place of the first byte that fits none, from the session's begin.
        at: u64,
    },
    /// A message of a base:1.0 session is no request.
    Malformed {
        /// Where that shows, from the message's begin.
        at: u64,
        /// Why.
        why: Why,
    },
    /// A message is longer than the limit.
    TooBig {
        /// Where that shows, from the session's begin.
        at: u64,
    },
    /// The session was ended by another (RFC 6241 7.9).
    Killed,
    /// A read failed.
    ReadFault,
    /// A write failed.
    WriteFault,
    /// There is no place for the session.
    Full {
        /// How many sessions are live.
        live: u32,
        /// The last session-id that was given.
        last: u32,
    },
    /// The desk can make no entry any more.
    Spent {
        /// The number that was reached.
        ticket: u64,
    },
    /// Want of memory.
    Memory,
}

impl From<Memory> for SessionEnd {
    ghost from_gives = { λ _ end. end ≡ EndMemory };

    fn from(_: Memory) -> SessionEnd {
        SessionEnd::Memory
    }
}

impl SessionEnd {
    /// Whether the desk can make no entry any more.
    pub(crate) fn is_spent(&self) -> bool
        ensures { result ≡ serves.is_spent self.now }
    {
        matches!(self, SessionEnd::Spent { .. })
    }
}

//! What happens to the server, and what comes of it.
use nc_protocol::{Peer, Reply, Request, Verdict};

/// What happens to the server.
#[derive(PartialEq, Eq, Drop)]
pub enum Event {
    /// A client opens a session (RFC 6241 8.1).
    Start {
        /// The client.
        peer: Peer,
    },
    /// A session sends a request (RFC 6241 4.1).
    Request {
        /// The session's id.
        session: u32,
        /// The request.
        request: Request,
    },
    /// A session's transport is gone (RFC 6241 2.1).
    End {
        /// The session's id.
        session: u32,
    },
    /// The clock is read, and nothing else happens.
    Reading,
}

/// What comes of an event.
#[derive(Drop)]
pub enum Outcome {
    /// The session is live.
    Started {
        /// Its session-id (RFC 6241 8.1), from 1.
        session: u32,
    },
    /// No session is started, for want of a place or of a session-id.
    Full {
        /// How many sessions are live.
        live: u32,
        /// The last session-id that was given.
        last: u32,
    },
    /// The request is answered.
    Answered {
        /// The verdict on it.
        verdict: Verdict,
        /// The `rpc-reply` (RFC 6241 4.2).
        reply: Reply,
    },
    /// The session is not live.
    NotLive,
    /// The session is over.
    Ended,
    /// The clock was read.
    Noted,
}

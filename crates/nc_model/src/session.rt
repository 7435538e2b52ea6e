//! Live sessions.
use nc_protocol::Peer;

/// A live session (RFC 6241 8.1).
#[derive(PartialEq, Eq, Drop)]
pub struct Session {
    /// Its session-id, from 1.
    pub number: u32,
    /// Its client.
    pub peer: Peer,
}

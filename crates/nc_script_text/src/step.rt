//! The steps of a script.
use nc_names::Bytes;
use nc_protocol::Peer;

/// One step of a script. Connections have numbers of the script's own.
#[derive(Drop)]
pub enum ScriptStep {
    /// A connection begins: a session is started for its client (RFC 6241 2.1).
    Begin {
        /// The connection's number.
        connection: u32,
        /// The client.
        peer: Peer,
    },
    /// The client sends bytes.
    Piece {
        /// The connection's number.
        connection: u32,
        /// The bytes.
        bytes: Bytes,
    },
    /// The client ends the connection.
    End {
        /// The connection's number.
        connection: u32,
    },
    /// The clock is read.
    Reading {
        /// Its reading in milliseconds.
        at: u64,
    },
}

//! The limits of the server.

/// The most octets of a message that is taken or sent, without its framing.
pub const MESSAGE_LIMIT: usize = 4_194_304;

/// The most elements that are open at one place of a message.
pub const ELEMENT_DEPTH: usize = 64;

/// The most octets that are read or written at once.
pub const PIECE_LIMIT: usize = 16_384;

/// The most requests that are ever answered, and the most entries of a history.
pub const MOST_REQUESTS: u64 = 1 << 62;

/// The most bytes of the body of a record, which is what is kept of a configuration.
pub const BODY_LIMIT: u64 = 33_554_432;

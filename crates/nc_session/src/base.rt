//! The versions of the protocol.

/// The version of the protocol that a session speaks after the hellos (RFC 6241 8.1), which decides how
/// its messages are framed (RFC 6242 4.1).
#[derive(Clone, Copy, PartialEq, Eq)]
pub enum Base {
    /// `urn:ietf:params:netconf:base:1.0`: with the end-of-message mark.
    Base10,
    /// `urn:ietf:params:netconf:base:1.1`: in chunks.
    Base11,
}

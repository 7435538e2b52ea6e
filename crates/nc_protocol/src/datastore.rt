//! Configuration datastores, and where a configuration is taken from.
use nc_message::Elem;

/// A configuration datastore that a request may name (RFC 6241 5.1, 8.3, 8.7 and 8.8).
#[derive(Clone, Copy, PartialEq, Eq, Debug)]
pub enum Datastore {
    /// `<running>` (RFC 6241 5.1).
    Running,
    /// `<candidate>` (RFC 6241 8.3).
    Candidate,
    /// `<startup>` (RFC 6241 8.7).
    Startup,
    /// `<url>` (RFC 6241 8.8).
    Url,
}

/// What copy-config copies, and what validate looks at (RFC 6241 7.3 and 8.6.4.1).
#[derive(PartialEq, Eq, Debug, Drop)]
pub enum Origin {
    /// The configuration of a datastore.
    Store(Datastore),
    /// The configuration in a `<config>` element of the request.
    Inline(Elem),
}

//! The line that names a peer, which stands before the bytes of its session where a connection comes
//! without one: the user and its groups, separated by single spaces and ended by a line feed.
//!
//! `read_peer` reads that line from any source and no byte past its line feed. It promises the peer whose
//! line the bytes are, or, where no line begins with the bytes that were read, the place at which they stop
//! to begin one. It stands on nc_names, the source of nc_outside and the peer of nc_protocol.
#![tactic(auto)]

mod fault;
mod line;
mod reading;

pub use fault::PeerFault;
pub use reading::read_peer;

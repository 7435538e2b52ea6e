//! Connections, each served by a worker of its own, and a worker that reads the clock.
//!
//! `serve_connection` reads the peer of a connection and serves its session at a desk. `serve` takes the
//! connections of a listener until no more will come, or the listener has failed sixteen times in a row.
//! It stands on nc_peer and nc_session, and takes its desks from whoever has them (`Desks`).
//!
//! What its calls promise: `serve_connection` serves the session of a peer that the first line names, who
//! has no recovery, on the bytes after that line; where no peer is read nothing was entered, and nothing
//! was written. `serve` says by what the listener told last how it ended, and has given back every desk
//! that it took, at none of which a recovery session was begun. That each connection is served, and the
//! clock read, is shown by tests alone. Nothing is promised of when, nor that `serve` returns.
#![tactic(auto)]

mod connection;
mod crew;
mod desks;
mod end;
mod heard;
mod lines;
mod office;
mod serving;
mod timer;
mod worker;

pub use crate::desks::Desks;
pub use connection::serve_connection;
pub use end::ServeEnd;
pub use serving::serve;

//! A session at any desk: the hellos of both peers, the requests of the session's bytes, and the
//! replies to them (RFC 6241 4, 8.1; RFC 6242 4).
//!
//! It stands on the definitions and traits of nc_model and nc_outside, takes messages from nc_frames and
//! reads them by nc_message_read and nc_requests. `SessionCore` gives the requests of all bytes that were
//! fed, one by one, however they are cut. `serve_session` promises for any desk, source and sink what is
//! entered, what is read and what is written, by the end that it answers. `hello` appends the server's
//! hello. The laws say that the bytes of a session have one reading.
#![tactic(auto)]

mod base;
mod client_hello;
mod end;
mod fetch;
mod inbox;
mod laws;
mod reply;
mod requests;
mod serve;
mod server_hello;
mod session_core;
mod shape;
mod standing;
mod turn;
mod words;

pub use base::Base;
pub use end::{BadMessage, HelloFault, SessionEnd};
pub use laws::has_one_reading;
pub use serve::serve_session;
pub use server_hello::hello;
pub use session_core::{SessionCore, Todo};

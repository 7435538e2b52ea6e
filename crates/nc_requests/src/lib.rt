//! Requests of messages (RFC 6241 4.1, 7 and 8; RFC 5717 2.4): an operation with its parameters, or the cause
//! for which there is none.
//!
//! `decode` gives exactly the request that nc_protocol's definition `decoded` has for a message: the first
//! fault in document order, else the first parameter that is missing in the order of the operation's table.
//! It moves the configuration of an edit-config, a copy-config or a validate out of the message, and copies
//! none of it. It is total: a message that asks for nothing known becomes a request whose `asked` is the
//! cause.
#![tactic(auto)]

mod asking;
mod content;
mod faults;
mod operation;
mod parameter;
mod reading;
mod request;
mod stop;

pub use request::decode;

//! The framing of NETCONF messages over a transport (RFC 6242 4): whole messages out of a stream that comes
//! in pieces, with the end-of-message mark or in chunks, and the writing of messages in both. It stands on
//! nc_names, and on itoa and memchr.
//!
//! `Frames` gives the messages in their order, however the stream is cut; `None` exactly where what is
//! left is no whole message and shows no fault; a fault in the place of the message that has it, and from
//! then on. Until then it has met none: a `switch` reads all that is not given as chunks. What the writers
//! append is framed as exactly that message. The laws say the same of whole streams and sessions. The bytes
//! are moved twice, in and out; what is kept is at most one message and what was fed since the last answer.
//!
//! The crate trials_text tests it.
#![tactic(auto)]

mod chunks;
mod fault;
mod frames;
mod header;
mod laws;
mod marks;
mod source;
mod write;

pub use fault::FrameFault;
pub use frames::Frames;
pub use laws::{
    bad_frame_is_first, gives_all_that_is_fed, gives_the_session, gives_the_stream, has_one_answer,
    has_one_reading, is_bounded, is_framed_as_defined, writes_one_message,
};
pub use write::{WRITTEN_CHUNK, write_chunks, write_eom, write_header};

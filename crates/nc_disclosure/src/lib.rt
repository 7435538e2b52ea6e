//! What a session learns of the server by its replies, as laws over the definitions of `nc_model` (RFC
//! 8341 3.2.4, 3.4.3): reads show what the session sees, replies tell nothing else, and states that differ
//! in nothing else give equal replies, but for causes that may come of what it does not see.
//!
//! Nothing here runs, and no crate stands on this one. The contract of `nc_machine` ties the server to the
//! definitions: each entry that it makes fits its state, and so its reply is one that these laws speak of.
#![tactic(auto)]

mod laws;

pub use laws::{
    alike_states_disclose_least, entries_disclose_least, reads_show_seen, refusals_name_no_data,
    replies_leave_out, verdicts_tell_seen,
};

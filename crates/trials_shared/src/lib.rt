//! Two sessions in threads of their own over one machine.
//!
//! `serve_two` promises in one clause what holds of running threads: there is one history, legal from the
//! state in which the machine was handed in; what was written to each session is the text of its own
//! entries, which stand in it in their order; no entry is of both; and the machine that is left went on by
//! all of it. It speaks of any keeper, clock and streams. Nothing but these stands on this crate.
#![tactic(auto)]

mod two;

pub use two::{Client, Over, Together, serve_two};

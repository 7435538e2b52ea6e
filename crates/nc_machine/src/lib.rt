//! The server as one machine (RFC 6241 4, 5.1, 7 and 8): `Machine` takes one event after another and
//! makes an entry of the history of each. It stands on the definitions of `nc_model`, on the
//! configurations and their keeper of `nc_tree`, on the crates of locks, payloads, edits, filters,
//! violations and replies, on access control, and on the clock of `nc_outside`.
//!
//! Each entry of `handle`, `end` and `tick` fits the machine's state, has the event and the reading that
//! were handed in and the old count as its number; the new state is the one that the entry leaves. After
//! want of memory the machine is as after `tick`. Its state is good at all times, so that running is a
//! valid configuration, and its keeper keeps what running is once no commit is pending. `Solo` is the desk
//! of one thread over a machine and a clock: each call that is not spent is one reading of the clock and
//! one call of the machine.
#![tactic(auto)]

mod access;
mod answer;
mod commit;
mod commit_checks;
mod confirm;
mod copy;
mod decide;
mod edit;
mod event;
mod get;
mod laws;
mod locks;
mod machine;
mod partial;
mod server;
mod sessions;
mod solo;
mod validate;

pub use laws::unopposed_is_granted;
pub use machine::Machine;
pub use solo::Solo;

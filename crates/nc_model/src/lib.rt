//! The server in plain terms: how the state of the datastores, sessions, locks and the pending commit follows
//! from its events, which verdict a request gets, and what a legal history is (RFC 6241, RFC 5717, RFC 8341).
//!
//! The types are what the parts of the server hand to one another; a `Desk` is where a session hands in its
//! events. The specifications beside them are the definitions by which those parts are proved: the state, the
//! decisions of access control, the verdict on a request, one step, and histories of steps. What a request
//! and its reply are stands in `nc_protocol`.
#![tactic(auto)]

mod called;
mod desk;
mod entry;
mod event;
mod laws;
mod policy;
pub mod server_words;
mod session;

pub use called::Called;
pub use desk::{Desk, DeskFault, Spent};
pub use entry::{Bears, Entry};
pub use event::{Event, Outcome};
pub use laws::{
    commit_alone_changes_base, disk_fault_has_cause, good_stays, histories_join,
    history_is_determined, is_ended_between, legal_histories_join, lock_goes_with_changes,
    locked_is_seen, mine_grows, mine_stays, nothing_is_denied, one_entry_is_legal, opening_is_good,
    refused_changes_nothing, running_changes_by_few, verdict_is_whole, visible_is_configuration,
};
pub use policy::{AccessOperations, Group, Policy, Rule, RuleKind, RuleList};
pub use session::Session;

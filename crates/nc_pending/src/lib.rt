//! The confirmed commit that waits to be confirmed (RFC 6241 8.4). It stands on the definitions of `nc_model`
//! and on the configurations of `nc_tree`.
//!
//! `Pending` is seen as the pending commit of the server's state, and each call is the part of the
//! definitions that it names: who may follow, confirm or cancel it, what a follow-up makes of it, when it is
//! reverted, and what the end of a session does to it. The base is handed in, kept and given back by moves,
//! so that nothing here takes memory: a reversion always happens.
#![tactic(auto)]

mod laws;
mod pending;

pub use laws::{ended_as_stated, followed_as_stated, reverted_as_stated};
pub use pending::{Pending, PendingFault, deadline_after};

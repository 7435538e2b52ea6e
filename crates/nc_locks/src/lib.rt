//! The locks of whole datastores (RFC 6241 7.5, 7.6): which session holds that of running, and which that of
//! the candidate. It stands on the definitions of `nc_model`.
//!
//! `Locks` is seen as the `Holders` of the server's state, and each call is the part of the state's
//! definitions that it names: `holder` is `holder_of`, `grant` and `release` are `with_holder`, and `end` is
//! `holders_without`. No call takes memory.
#![tactic(auto)]

mod locks;

pub use locks::Locks;

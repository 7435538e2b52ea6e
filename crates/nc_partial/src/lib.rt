//! Partial locks (RFC 5717): which sessions hold them, with which lock-ids, and which nodes of running they
//! lock; and which nodes the selects of a request name. It stands on the definitions of `nc_model`, on the
//! configurations of `nc_tree`, and on `nc_paths` and `nc_types` for the instance identifiers of selects.
//!
//! `PartialLocks` is seen as what the server's state has of partial locks, the list of them and the last
//! lock-id that was given, and each call is the part of the state's definitions that it names: what is asked
//! of a lock is `lock_of_other`, and `grant`, `release` and `end` are `with_partial`, `without_partial` and
//! `released`.
//!
//! The nodes of all locks stand in one index besides, in the order of their steps. A look at a node is a
//! binary search there for each node above it, and takes no memory.
//!
//! `paths_selected` reads the selects, and `nodes_seen` gives those of the nodes that exist and are seen,
//! each once: together they are `nodes_selected`.
#![tactic(auto)]

mod entry;
mod held;
mod index;
mod laws;
mod locks;
mod lowest;
mod seen;
mod selects;

pub use entry::Covered;
pub use laws::refusal_as_stated;
pub use locks::{PartialFault, PartialLocks};
pub use seen::nodes_seen;
pub use selects::paths_selected;

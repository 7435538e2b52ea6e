//! References of a configuration (RFC 7950 9.9.3, 9.13.2): whether each leafref has the value of an
//! instance of its target, and whether the node of each instance-identifier exists. It stands on the
//! definitions of `nc_schema` and on the places and values in use of `nc_defaults`.
//!
//! `first_reference` gives the first violation of the references, exactly as `reference_violations` of
//! `nc_schema` lists them, or none where that list is empty. Want of memory alone is free.
#![tactic(auto)]

mod branches;
mod named;
mod referred;
mod refs;
mod trail;

pub use refs::first_reference;

//! Path texts and the places of their faults: instance identifiers (RFC 7950 9.13), node-instance identifiers
//! (RFC 8341 3.5.2) and the paths of leafrefs (RFC 7950 9.9.2). It stands on `nc_paths`, which reads path
//! texts, on the plain types of `nc_names` and on the schema.
//!
//! Each call gives what `nc_paths` gives. What is not of the grammar, or names nothing in the schema, is
//! refused, and `at` is the first byte that no path of the schema has there (clause `place`): of an instance
//! identifier and a node-instance identifier where no predicate is of two keys of a list, as in every schema
//! that modules define (`proper_keys_are_apart`), and of the path of a leafref in every schema.
#![tactic(auto)]

mod candidates;
mod fault;
mod halt;
mod laws;
mod leafref_place;
mod leafref_ways;
mod paths;
mod place;

pub use fault::PathFault;
pub use laws::proper_keys_are_apart;
pub use paths::{instance_id, leafref_path, node_instance_id};

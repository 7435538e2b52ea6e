//! What a configuration breaks of the constraints on which nodes stand (RFC 7950 8.1): mandatory
//! leafs and choices, the number of entries, and `unique`; with the references of `nc_refs` it is whether a
//! configuration is valid. It stands on the schema and on the places of a configuration, which `nc_defaults`
//! lists.
//!
//! `first_structural` gives exactly the first of the violations that the definition
//! `structural_violations` lists, whatever the schema and the rows are. It looks at one place after
//! another and stops at the first violation; in each it looks at the children of the place's data
//! node, and at the choices without data nodes, which are found once. Entries are compared by their values
//! in order, or by a set of them, and not one with each. `violation_in` gives the first of all violations.
#![tactic(auto)]

mod alone;
mod apart;
mod asked;
mod choices;
mod counts;
mod entries;
mod faults;
mod outline;
mod structural;
mod tuples;
mod unique;
mod violation;

pub use structural::first_structural;
pub use violation::violation_in;

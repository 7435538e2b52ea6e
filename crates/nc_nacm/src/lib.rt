//! Access control (RFC 8341): the policy that a configuration holds, decisions on operations and data
//! nodes, and what a user sees. It stands on the definitions of `nc_model`, on the path texts of `nc_paths`
//! and on the values in use of `nc_defaults`.
//!
//! `Policy::of` reads the policy of a configuration. Each call of a `Policy` answers exactly what the
//! definition of its name says. An `Access` is made for one user, where data is asked: it gives the rights
//! that an edit needs (`Rights`), the nodes and rows that are seen (`Sees`, `visible`), and finds the first
//! rule that matches by an index, in less time than each rule takes. Want of memory alone is free.
#![tactic(auto)]

mod access;
mod anchors;
mod applying;
mod asked;
mod called;
mod chained;
mod chains;
mod entries;
mod finder;
mod groups;
mod index;
mod key;
mod made;
mod marks;
mod nodes;
mod numbers;
mod operations;
mod plain;
mod policy;
mod reading;
mod rules;
mod user;
mod visible;
mod words;

pub use access::Access;
pub use policy::Policy;

//! How two configurations differ (RFC 7950 7.7.7, RFC 8341 3.2.2): `changes` lists the paths that are
//! created, updated and deleted. It stands on the definitions of `nc_protocol` and on the configurations of
//! `nc_tree`.
//!
//! `changes` answers exactly what `changes_between` defines; want of memory alone is free. `Differing`
//! answers of one row after another what `differs` does, and finds the moves of a list that the user orders
//! once. `are_apart` tells in one pass that no two rows have one path, in whatever order they come.
#![tactic(auto)]

mod asked;
mod common;
mod differ;
mod found;
mod marks;
mod moved;
mod ranks;
mod tops;

pub use differ::{Differing, changes, differs, is_same_value, is_updated};
pub use marks::are_apart;

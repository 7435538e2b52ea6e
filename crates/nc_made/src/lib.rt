//! What one edit leaves (RFC 6241 7.2, RFC 7950 7.5.8 to 7.8.6): `make` makes an edit in a configuration,
//! whatever stands in its way; `new_block` has the rows that are then at and below its node, and `own_block`
//! those that the edit brings, where it does not leave what stands (`keeps_rows`). It stands on the
//! definitions of `nc_protocol` and on the configurations of `nc_tree`.
//!
//! `make` leaves exactly the rows that `left_by` defines. Want of memory alone is free.
#![tactic(auto)]

mod made;

pub use made::{keeps_rows, make, new_block, own_block};

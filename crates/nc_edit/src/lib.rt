//! Edits of a configuration (RFC 6241 7.2, RFC 7950 7.5.8 to 7.8.6, RFC 8341 3.4.5): `apply` makes several
//! under an error-option, with the rights that they need; `apply_freely` makes them where every right is
//! given. It stands on the definitions of `nc_protocol`, on the configurations of `nc_tree` and on `nc_made`,
//! which makes one edit.
//!
//! `apply` leaves exactly the rows, and answers the causes, that `applied` defines. Want of memory alone is
//! free.
#![tactic(auto)]

mod alone;
mod asked;
mod asks;
mod behind;
mod causes;
mod edits;
mod missed;
mod single;

pub use edits::{apply, apply_freely};

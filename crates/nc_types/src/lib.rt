//! Values of the types of leafs and leaf-lists (RFC 7950 9): whether a text is one, and its canonical text.
//! It stands on the schema, whose types it reads, and on `nc_paths` for the values that are paths.
//!
//! `canonical` answers exactly what the definition of the same name in `nc_schema` says. `read_units` and
//! `split_point` read the parts of numbers and ranges, for the types that modules write.
#![tactic(auto)]

mod bits;
mod decimal;
mod fault;
mod gives;
mod identity;
mod node;
mod number;
mod paths;
mod plain;
mod reading;
mod scope;
mod simple;
mod value;
mod zeros;

pub use decimal::{read_units, split_point};
pub use fault::TypeFault;
pub use node::canonical;

//! The plain types that every other crate of the server stands on: texts, bytes and lists that
//! contracts see as lists, qualified names, paths, rows, the kinds of causes, canonical decimals,
//! characters and identifiers, and the limits of the server. It stands on itoa alone.
//!
//! A collection here is equal to another where they hold the same, whatever their capacity and
//! whether or not they share it, so `≡` on a struct of them is equality of meaning. What makes a new
//! collection takes the allocator first; what grows one uses the allocator that the collection holds.
//! Each call promises its exact result; one that answers `Memory` has changed nothing.
//!
//! The crate trials_text tests it.
#![tactic(auto)]

mod bindings;
mod boxed;
mod bytes;
mod cause;
mod copies;
mod decimal;
mod laws;
mod limits;
mod many;
mod memory;
mod name;
mod path;
mod same;
mod shared;
mod signs;
mod slices;
mod text;
mod white;

pub use bindings::Binds;
pub use boxed::Boxed;
pub use bytes::Bytes;
pub use cause::CauseKind;
pub use copies::Copies;
pub use decimal::parse_decimal;
pub use laws::limits_are_as_stated;
pub use limits::{BODY_LIMIT, ELEMENT_DEPTH, MESSAGE_LIMIT, MOST_REQUESTS, PIECE_LIMIT};
pub use many::Many;
pub use memory::Memory;
pub use name::{Bound, Module, QName, same_name};
pub use path::{Path, Place, Right, Row, Step};
pub use same::{same_keys, same_rows, same_steps};
pub use shared::Shared;
pub use signs::{begins_identifier, is_identifier, is_in_identifier, is_white};
pub use slices::tail;
pub use text::Text;
pub use white::{after_white, trimmed, trimmed_bytes};

//! Messages as trees of XML elements, and the one text that the server writes for a tree (XML 1.0,
//! Namespaces in XML 1.0, RFC 6241 3). The pieces of that text can be written one by one too, where no
//! tree is made for them.
//!
//! The tests of the program above write messages; `proofs/Example.antt` has a tree with its text.
#![tactic(auto)]

mod bounds;
mod escape;
mod marks;
mod prefixes;
mod start;
mod tree;
mod writer;

pub use bounds::{Bindings, Bounds, Level};
pub use escape::write_chars;
pub use start::write_start;
pub use tree::{Attr, Elem, Part, Tree, Why};
pub use writer::{write, write_empty_end, write_end, written_holds_no_mark};

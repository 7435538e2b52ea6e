//! The statements of a YANG module text (RFC 7950 sections 6.1 to 6.3): its tokens, and the one tree
//! of statements that they spell.
//!
//! A text is read in two layers. `lexer` gives its tokens one after another, by the readers of
//! `piece`, and `parser` builds the tree from them. Nothing here knows what a statement means.
//!
//! It stands on nc_names alone. `statements` promises the one tree that the text spells, or the line
//! of the text's one fault, and by the laws each text has one of the two. The crate `trials_text` tests
//! it.
#![tactic(auto)]

mod begun;
mod double;
mod fault;
mod keyword;
mod laws;
mod lexer;
mod parser;
mod piece;
mod place;
mod sign;
mod statement;
mod token;

pub use fault::WordFault;
pub use laws::{lines_are_counted, one_reading, text_is_in_parts};
pub use parser::statements;
pub use statement::Statement;

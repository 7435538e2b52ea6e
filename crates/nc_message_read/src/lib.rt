//! The reader of messages: the tree that the bytes of a message spell, or where and why they spell none
//! (XML 1.0, Namespaces in XML 1.0, RFC 6241 3).
//!
//! It stands on the definition of what bytes spell in nc_message. It goes through the message token by token,
//! with a stack of the elements that are open; before, it goes once through a message that may declare long
//! namespaces, for these. Namespaces, bindings and names that repeat are shared in the tree, what a
//! client names is looked up by order, and the namespaces of attributes are told apart by short marks where
//! they may be long, so time and memory stay near-linear in the message.
//!
//! Laws: a message has one tree, a fault none, and what nc_message writes of a tree is read back.
#![tactic(auto)]

mod apart;
mod declared;
mod known;
mod laws;
mod marked;
mod marks;
mod numbers;
mod open;
mod read;
mod reader;
mod scan;
mod scope;
mod stack;
mod start;
mod stop;
mod text;
mod written;

pub use laws::{no_tree_at_fault, one_tree, written_is_read};
pub use read::read_message;
pub use stop::MessageFault;

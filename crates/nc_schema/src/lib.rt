//! The schema of a data tree: its data nodes, choices, types, modules and patterns by their numbers,
//! the child of a node by its name, and the path text of a node. It stands on the plain types of
//! `nc_names`, and on `nc_patterns` for what a pattern admits.
//!
//! Its specifications hold what every crate above shares: what a path of a schema is, the text of a
//! path (RFC 7950 9.13), document order, what list of rows is a configuration
//! (RFC 7950 7.5 to 7.9), and how a record spells one.
#![tactic(auto)]

mod index;
mod laws;
mod modules;
mod node;
mod nodes;
mod number;
mod path_text;
mod pattern;
mod schema;
mod value_type;
mod violation;
mod written;

pub use laws::{
    body_spells_one, empty_is_data_tree, empty_is_valid, order_is_strict, order_is_total,
    record_size_is_length, rows_are_one_list, rows_rise, text_names_one_path,
};
pub use nc_names::Module;
pub use node::{Case, Choice, Deny, Kind, Node};
pub use number::read_number;
pub use pattern::{LeafrefEnd, Pattern, PatternStep};
pub use schema::Schema;
pub use value_type::{Between, ValueType};
pub use violation::Violation;
pub use written::{WrittenName, WrittenPredicate, WrittenStep};

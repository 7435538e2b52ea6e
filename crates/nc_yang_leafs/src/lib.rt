//! The types of the leafs and leaf-lists that YANG modules define (RFC 7950 7.6.3, 7.7.3, 9).
//!
//! It stands on the data nodes of nc_yang_nodes, on what their `type` statements mean by nc_yang_types, on
//! nc_paths for the paths of leafrefs and on nc_patterns for the patterns of strings. A type is known by the
//! number of its plan.
//!
//! `typed` gives a schema its table of types and each leaf and leaf-list the number of its own, or a leafref
//! whose path leads to no leaf or leaf-list. Types without a leafref in them are shared by all that use them,
//! and types identityref by all whose `base` statements name the same identities (`name_same`); one with a
//! leafref is made for each data node, since its path starts there. Each entry of the table is made once and
//! for some data node, and no call recurses along the members of unions. By the law `types_are_proper` the
//! types then are those of a proper schema. `marks_of` tells types with a leafref in them from those without
//! one. The patterns of strings come after that: `with_patterns` adds those of all types to the schema, or
//! promises that the maker of nc_patterns that was handed in refused one of them.
//!
//! # Circles
//!
//! What a leaf refers to, by its type or by the members of its type, is an edge from its number to that of
//! another (RFC 7950 9.9.2). `first_circle` promises a fault exactly where a leaf or leaf-list refers to one
//! that leads back to it, and then it is one of those, at the `path` statement. Types without a leafref in them
//! are passed over, and no call recurses along leafrefs or the members of unions.
//!
//! # Defaults
//!
//! `with_defaults` promises exactly the defaults that the statements say, in canonical form (RFC 7950 7.3.4,
//! 7.6.1, 7.6.4, 7.7.2, 7.7.4), or a bad argument at the first data node with a default that breaks a rule;
//! `keep_defaults` promises the same answer and changes nothing.
#![tactic(auto)]

mod all;
mod bare;
mod circle;
mod default_laws;
mod default_node;
mod defaults;
mod derives;
mod entry;
mod fill;
mod firsts;
mod kinds;
mod laws;
mod link;
mod link_site;
mod marks;
mod named;
mod node;
mod paths;
mod patterns;
mod put;
mod site;
mod sources;
mod table;
mod typing;
mod value;
mod values;
mod walk;

pub use bare::Typed;
pub use circle::first_circle;
pub use default_laws::{
    defaults_are_canonical, defaults_are_fixed, defaults_keep_rules, leaf_has_one_default,
    outcome_is_canonical,
};
pub use defaults::{keep_defaults, with_defaults};
pub use derives::Derives;
pub use laws::types_are_proper;
pub use marks::{is_marked, marks_of, plan_at};
pub use named::name_same;
pub use patterns::with_patterns;
pub use typing::typed;

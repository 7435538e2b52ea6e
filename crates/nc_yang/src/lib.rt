//! The schema that YANG modules define (RFC 7950).
//!
//! It stands on a crate for each pass: nc_yang_scopes knows what names mean, nc_yang_nodes has features, the
//! data nodes in order and the identities, nc_yang_types what types mean, nc_yang_data the nodes with their
//! keys, cases and `unique` leafs, and nc_yang_leafs the table of types, leafrefs in circles and the
//! defaults. The expressions of patterns are made by a maker of nc_patterns that is handed in. Typedefs with
//! a default are judged as leafs of a schema of their own (RFC 7950 7.3.4).
//!
//! Before the modules that are handed in stands ietf-netconf-acm, whose text is a definition (RFC 8341
//! 3.5.2). `compile` promises the schema that modules define, a proper one with canonical defaults, and with
//! it the first line that names no feature of them; or a rule that a file breaks, or a pattern that the maker
//! refused. By the law `types_mean`, in modules that keep all rules each `type` statement means something,
//! and so does each member of a union, down to the last; by `planned_types_mean` each leaf and leaf-list of a
//! plan has such a type, and by `data_types_mean` each one of a schema. By `modules_are_proper` the modules
//! of a schema have names and namespaces of their own; the whole schema is proper by `schemas_are_proper`,
//! and each default in it is a canonical text by `defaults_are_canonical`. By `never_both` modules that break
//! a rule have no schema, and by `one_schema` the others have one, but for the numbers of its types; by
//! `same_configurations` these have the same configurations, and by `same_violations` the same violations. By
//! `rules_refuse_nothing` PatternRefused is the reason of no rule: it comes only where the maker refused.
//!
//! # Texts
//!
//! `read_texts` promises the statements that module texts spell, or a fault of one that spells none or is
//! past a limit of the server. `first_break` promises a fault exactly where a rule is broken that needs
//! neither a data node nor a type (RFC 7950 5, 6, 7), and then it is one of those.
#![tactic(auto)]

mod access;
mod counts;
mod depth;
mod fault;
mod features;
mod laws;
mod names;
mod read;
mod rules;
mod schema;
mod suited;
mod supported;
mod text;
mod text_laws;
mod texts;
mod typedefs;

pub use fault::CompileFault;
pub use laws::{
    data_types_mean, defaults_are_canonical, modules_are_proper, never_both, one_schema,
    planned_types_mean, rules_refuse_nothing, same_configurations, same_violations,
    schemas_are_proper, types_mean,
};
pub use read::{chars_of, read_texts};
pub use rules::first_break;
pub use text::ModuleText;
pub use text_laws::read_one_way;
pub use texts::{Compilation, compile};

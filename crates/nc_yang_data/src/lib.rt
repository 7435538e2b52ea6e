//! The data nodes, choices and modules of a schema out of planned ones (RFC 7950 7.1, 7.5 to 7.9): their
//! names, kinds, cases, counts, keys and `unique` leafs, and the rules on these. Types, defaults and access
//! control's statements are left to the crates above.
//!
//! It stands on the plan of nc_yang_nodes, the statements of nc_yang_scopes, and the schema of nc_schema.
//!
//! `data_nodes` promises exactly the defined tables where no rule is broken, and else the first rule that is;
//! by the law `data_is_in_place` the data nodes and choices then are in place as those of a proper schema,
//! and by `data_is_fixed` they do not depend on which plan of the modules is taken. `prefixes` promises the
//! prefixes of a text with their namespaces, `all_prefixes` those of each text, and `namespaces` the
//! namespaces of all texts, and `add_modules` adds their modules to a schema. First each node is made by its
//! statement alone; then each again, with the leafs that it names among those. The folders of cases/ test it.
#![tactic(auto)]

mod again;
mod bounds;
mod called;
mod cases;
mod choice;
mod conditions;
mod defaults;
mod draft;
mod drafts;
mod laws;
mod leaf;
mod list;
mod module;
mod modules;
mod naming;
mod nodes;
mod place;
mod siblings;
mod tables;
mod texts;
mod words;

pub use bounds::{all_prefixes, prefixes};
pub use laws::{data_is_fixed, data_is_in_place};
pub use modules::add_modules;
pub use tables::data_nodes;
pub use texts::namespaces;

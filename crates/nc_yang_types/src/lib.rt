//! What a `type` statement says by its own parts (RFC 7950 7.4, 9): which parts a type may have and has to
//! have, the numbers that ranges and lengths leave, the names of enumerations and bits with their numbers,
//! and the entry that comes of them, over a built-in type that needs no other name or over the entry of
//! another type.
//!
//! It stands on the statements of nc_yang_words, the rules of single ones in nc_yang_statements, which are
//! kept, on the types of nc_schema, on nc_types for the numbers in a range, and on nc_patterns, by which each
//! `pattern` statement is read. This looks no name up.
//!
//! `own` and `narrowed` promise the entry, without patterns, exactly where the definitions list no fault, and
//! else the first fault of their list. The folders of cases/ test them.
//!
//! # Through typedefs and unions
//!
//! What a type means at a place of the modules (RFC 7950 7.3, 7.4, 9) needs names, and stands on nc_yang_scopes.
//! A type is known by the number of its statement in the `Scopes`. What it means is a plan: a finished entry of
//! the schema's table of types, or the statements that make one for a data node (the member types of a union,
//! the `base` statements of an identityref, the `path` of a leafref). A typedef of a union, an identityref or a
//! leafref means what its type means, and types that add nothing to another share its plan.
//!
//! `meanings_of` promises what every type means where none breaks a rule, and else a rule that is broken. One
//! rule is that no member of a union is a leafref or an instance identifier, through typedefs too: the server
//! does not have such unions. Another is that no `default` beside a type names an enum or bit that an
//! `if-feature` makes conditional in it, or in a member of it, down to the last (RFC 7950 7.3.4, 7.6.4).
//! `defaults_of` and `leaf_default` promise the nearest default along the typedefs (RFC 7950 7.3.4, 7.6.1).
//! No call recurses along a chain of typedefs, and each type is looked at once.
#![tactic(auto)]

mod all;
mod bound;
mod by_itself;
mod check;
mod choice;
mod conditional;
mod conditions;
mod defaults;
mod dependents;
mod features;
mod footing;
mod found;
mod inside;
mod integer;
mod laws;
mod listed;
mod meaning_laws;
mod member;
mod names;
mod nested;
mod numbers;
mod over;
mod over_built_in;
mod over_type;
mod part;
mod patterns;
mod planned;
mod range;
mod restricted;
mod table;
mod taken;
mod union_member;

pub use all::meanings_of;
pub use bound::Counted;
pub use conditions::{Always, Conditions};
pub use defaults::{defaults_of, leaf_default};
pub use features::Features;
pub use laws::{bits_are_apart, bits_ascend, narrowed_gives, own_gives, restrictions_narrow};
pub use meaning_laws::{meaning_keeps_rules, one_default, one_meaning};
pub use member::Named;
pub use over_built_in::{listing_of, own};
pub use over_type::{lists, names_left, narrowed};
pub use part::{misshapen, narrows, needs, takes};
pub use planned::{Finding, Meanings, Planned};
pub use range::restriction;
pub use restricted::required;

//! Schemas whose types have no patterns yet.

use nc_names::Many;
use nc_schema::Schema;

/// A schema with the types of its leafs and leaf-lists, whose strings have no patterns yet (RFC 7950 9.4.5).
#[derive(Drop)]
pub struct Typed {
    /// The schema, without patterns.
    pub schema: Schema,
    /// For each of its types the `pattern` statements that all have to admit its values, by their numbers in
    /// the `Scopes`; none for what is no string.
    pub patterns: Many<Many<u32>>,
}

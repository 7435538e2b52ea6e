//! From what types are made.

use nc_names::{Bound, Many};
use nc_schema::Schema;
use nc_yang_scopes::Scopes;
use nc_yang_types::Meanings;

/// From what the types of a schema's leafs are made.
#[derive(Drop)]
pub(crate) struct Site<'b, 'a> {
    pub scopes: &'b Scopes<'a>,
    /// What `type` statements mean.
    pub meanings: &'b Meanings,
    /// Of each plan, whether it may have a leafref in it.
    pub marks: &'b [bool],
    /// Of each plan the one that has its entry.
    pub firsts: &'b [usize],
    /// The prefixes of each text.
    pub prefixes: &'b [Many<Bound>],
    /// The schema without types.
    pub schema: &'b Schema,
}

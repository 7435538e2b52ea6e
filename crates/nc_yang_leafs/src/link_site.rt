//! In what leafrefs are looked for.

use nc_names::{Bound, Many};
use nc_schema::Schema;
use nc_yang_nodes::Plan;
use nc_yang_scopes::Scopes;
use nc_yang_types::Meanings;

/// Texts with the data nodes that they define.
#[derive(Drop)]
pub(crate) struct Site<'b, 'a> {
    pub scopes: &'b Scopes<'a>,
    /// The statements of the data nodes.
    pub plan: &'b Plan,
    /// What `type` statements mean.
    pub meanings: &'b Meanings,
    /// Of each plan, whether it may have a leafref in it.
    pub marks: &'b [bool],
    /// The prefixes of each text.
    pub prefixes: &'b [Many<Bound>],
    /// The data nodes.
    pub schema: &'b Schema,
}

//! The defaults of all data nodes.
ghost use Rattle.std.specs.Prelude.{◌≡◌, length, IfOk, MatchResult};
ghost use Rattle.nc_yang_types.specs.Defaults.{AreDefaults};
ghost use Rattle.nc_yang_leafs.specs.Defaults.{BreaksDefault};
ghost use Rattle.nc_yang_statements.specs.Stops.{OnBroken};
ghost use Rattle.nc_yang_leafs.specs.Typed.{IsTyped};
ghost use Rattle.nc_yang_scopes.specs.Prefixes.{ArePrefixes};
ghost use Rattle.nc_yang_leafs.specs.inner.Reading.{AreFound};

use crate::default_node::defaults_at;
use nc_names::{Bound, Many, Text};
use nc_schema::Schema;
use nc_yang_nodes::Plan;
use nc_yang_scopes::{Scopes, TextFault};
use nc_yang_statements::Stop;
use std::alloc::Global;

/// The defaults of each data node, or the first rule that they break.
pub(crate) fn all_defaults(
    alloc: Global,
    scopes: &Scopes,
    plan: &Plan,
    defaults: &[Option<usize>],
    prefixes: &[Many<Bound>],
    schema: &Schema,
) -> Result<Many<Many<Text>>, Stop<TextFault>>
    requires { AreDefaults scopes.now defaults.now }
    ensures found { ArePrefixes scopes.now.texts prefixes.now → IsTyped scopes.now plan.now schema.now →
        MatchResult result (AreFound scopes.now plan.now schema.now (length schema.now.nodes))
        (OnBroken (BreaksDefault scopes.now plan.now schema.now)) }
    ensures counted { IfOk result (λ found. length found ≡ length schema.now.nodes) }
{
    let mut found = Many::new(alloc);
    for number in 0..schema.nodes() {
        found.push(defaults_at(alloc, scopes, plan, defaults, prefixes, schema, number)?)?;
    }
    Ok(found)
}

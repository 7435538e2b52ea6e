//! The data nodes and choices that modules define.
ghost use Rattle.std.specs.Prelude.{MatchResult};
ghost use Rattle.nc_yang_statements.specs.Stops.{OnBroken};
ghost use Rattle.nc_yang_nodes.specs.FeaturesOn.{is_on};
ghost use Rattle.nc_yang_nodes.specs.Plans.{IsFirstPast, IsPlan};

use crate::features::Features;
use crate::planned::Plan;
use crate::table::Table;
use crate::walk::Walk;
use nc_yang_scopes::{Scopes, TextFault};
use nc_yang_statements::Stop;
use std::alloc::Global;

/// The data nodes and choices of a configuration that modules define, with those features on: each module in
/// turn, in document order, with what a grouping gives where it is used (RFC 7950 7.13). What is off by an
/// `if-feature` (RFC 7950 7.20.2) and what is state (RFC 7950 7.21.1) is left out with all that stands in it.
/// Groupings are not to lead back to themselves (RFC 7950 7.12): where one does with no data node or choice
/// between, the answer is want of memory, and else a limit is passed.
pub fn plan_of<'a>(
    alloc: Global,
    scopes: &Scopes<'a>,
    features: &Features<'a>,
) -> Result<Plan, Stop<TextFault>>
    ensures { MatchResult result (IsPlan scopes.now (is_on features.now))
        (OnBroken (IsFirstPast scopes.now (is_on features.now))) }
{
    let table = Table::of(alloc, scopes, features)?;
    let mut walk = Walk::new(alloc);
    for text in 0..scopes.texts() {
        walk.add_text(alloc, &table, text)?;
    }
    let Walk { plan, .. } = walk;
    Ok(plan)
}

//! The `path` statements of the type of a data node.
ghost use Rattle.std.specs.Prelude.{◌≡◌, Some, slice_get, IfOk};
ghost use Rattle.nc_yang_scopes.specs.Numbers.{IsNumber};
ghost use Rattle.nc_yang_leafs.specs.Bases.{type_of};
ghost use Rattle.nc_yang_leafs.specs.Marks.{AreMarks};
ghost use Rattle.nc_yang_leafs.specs.inner.Links.{HasMarks, OnMeanings};
ghost use Rattle.nc_yang_leafs.specs.inner.Plans as words;

use crate::link_site::Site;
use crate::plan_at;
use crate::walk::plan_paths;
use nc_names::{Many, Memory};
use nc_yang_nodes::Plan;
use nc_yang_scopes::{Scopes, part_of};
use nc_yang_statements::Keyword;
use nc_yang_types::Meanings;
use std::alloc::Global;

// Whether the data node of a number has a value.
fn is_valued(site: &Site, leaf: u32) -> bool
    ensures { result ≡ words.is_valued site.now.schema.now leaf }
{
    match site.schema.node(leaf) {
        Some(node) => node.kind.has_value(),
        None => false,
    }
}

// The number of the `type` statement of a data node.
fn type_statement(scopes: &Scopes, plan: &Plan, leaf: u32) -> Option<usize>
    ensures { IsNumber scopes.now.located result (type_of scopes.now plan.now leaf) }
{
    let planned = plan.nodes.get(leaf as usize)?;
    scopes.statement(planned.statement)?;
    part_of(scopes, planned.statement, Keyword::TypeName)
}

// The paths of the plan of a `type` statement.
fn type_paths(
    alloc: Global,
    meanings: &Meanings,
    marks: &[bool],
    statement: usize,
) -> Result<Many<usize>, Memory>
    requires { AreMarks meanings.now marks.now }
    ensures { IfOk result (words.AreTypePaths meanings.now statement) }
{
    let Some(plan) = plan_at(meanings, statement) else {
        return Ok(Many::new(alloc));
    };
    plan_paths(alloc, meanings, marks, plan)
}

/// The numbers of the `path` statements of the type of a data node, if it is a leafref, or of the leafrefs
/// among its members.
pub(crate) fn paths(alloc: Global, site: &Site, leaf: u32) -> Result<Many<usize>, Memory>
    requires { HasMarks site.now }
    ensures { IfOk result (λ it. OnMeanings site.now (λ b. words.ArePaths b leaf it)) }
{
    if !is_valued(site, leaf) {
        return Ok(Many::new(alloc));
    }
    let Some(statement) = type_statement(site.scopes, site.plan, leaf) else {
        return Ok(Many::new(alloc));
    };
    type_paths(alloc, site.meanings, site.marks, statement)
}

//! The first leafref that leads in a circle.
ghost use Rattle.std.specs.Prelude.{◌≡◌, Some, IfOk, ℕ, Bool, List};
ghost use Rattle.nc_yang_types.specs.Plans.{AreMeanings};
ghost use Rattle.nc_yang_leafs.specs.Bases.{basis_on};
ghost use Rattle.nc_yang_scopes.specs.Prefixes.{ArePrefixes};
ghost use Rattle.nc_yang_scopes.specs.References.{fault_of};
ghost use Rattle.nc_yang_leafs.specs.Circles as circles;
ghost use Rattle.nc_yang_leafs.specs.inner.Links as words;

use crate::link::all_links;
use crate::link_site::Site;
use crate::marks_of;
use nc_names::{Bound, Many, Memory};
use nc_schema::Schema;
use nc_yang_nodes::Plan;
use nc_yang_order::{Ordered, is_within, targets_first};
use nc_yang_scopes::{Link, Scopes, TextFault, circle_fault, graph};
use nc_yang_types::Meanings;
use std::alloc::Global;

// The fault of the `path` statement by which an edge leads on.
fn circle(
    scopes: &Scopes,
    links: &[Many<Link>],
    leaf: u32,
    place: usize,
) -> Result<TextFault, Memory>
    ensures { IfOk result (λ it. fault_of scopes.now links.now leaf place ≡ Some it) }
{
    match circle_fault(scopes, links, leaf, place) {
        Some(fault) => Ok(fault),
        None => Err(Memory),
    }
}

// The first circle in the graph of links.
fn found(alloc: Global, site: &Site, links: &[Many<Link>]) -> Result<Option<TextFault>, Memory>
    ensures { IfOk result (λ it. words.OnMeanings site.now (λ b. words.AreAllLinks b links.now
        → circles.JudgesCircles b it)) }
{
    let graph = graph(alloc, links)?;
    if graph.len() > u32::MAX as usize || !is_within(graph.as_slice()) {
        return Err(Memory);
    }
    let ordered = targets_first(alloc, graph.as_slice())?;
    match ordered {
        Ordered::Order(_) => Ok(None),
        Ordered::Circle { from, place } => Ok(Some(circle(site.scopes, links, from, place)?)),
    }
}

/// A leafref by whose path a leaf or leaf-list leads back to itself, directly or through others (RFC 7950
/// 9.9.2), or `None` where there is none: the fault is at its `path` statement. The leafrefs of a leaf are
/// its type and the members of its type, down to the last. A path that leads to no leaf or leaf-list leads
/// nowhere on. `schema` has the data nodes of the plan, by their numbers.
pub fn first_circle(
    alloc: Global,
    scopes: &Scopes,
    plan: &Plan,
    meanings: &Meanings,
    prefixes: &[Many<Bound>],
    schema: &Schema,
) -> Result<Option<TextFault>, Memory>
    requires { ArePrefixes scopes.now.texts prefixes.now }
    ensures { IfOk result (λ it. (on : ℕ → List ℕ → Bool) → AreMeanings on scopes.now meanings.now
        → circles.JudgesCircles (basis_on on scopes.now plan.now schema.now) it) }
{
    let marks = marks_of(alloc, meanings)?;
    let site = Site {
        scopes,
        plan,
        meanings,
        marks: marks.as_slice(),
        prefixes,
        schema,
    };
    let links = all_links(alloc, &site)?;
    found(alloc, &site, links.as_slice())
}

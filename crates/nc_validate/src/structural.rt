//! The walk over the places of a configuration.
ghost use Rattle.std.specs.Prelude.{◌≡◌, ℕ, true, [], slice_get, IfOk};
ghost use Rattle.nc_schema.specs.Places.{Place};
ghost use Rattle.nc_schema.specs.Tables.{Tables};
ghost use Rattle.nc_schema.specs.Violations as violations;
ghost use Rattle.std.specs.List.{flat_map};
ghost use Rattle.nc_defaults.specs.Within.{AreWithin, IsWithin, place_here, places_in};
ghost use Rattle.nc_validate.specs.inner.First.{first};
ghost use Rattle.nc_validate.specs.inner.Children.{bare_from, begun_choices};
ghost use Rattle.nc_validate.specs.inner.Children.{child_at, nodes_from, uniques_of};
ghost use Rattle.nc_validate.specs.inner.Outlines.{IsOutline};

use crate::asked::spots_asked;
use crate::choices::{first_of_bare, first_of_choice};
use crate::counts::{first_of_counts, is_bounded};
use crate::entries::entries;
use crate::faults::is_found;
use crate::outline::{Outline, outline_of};
use crate::unique::first_repeated;
use nc_defaults::{Children, Here, Spot, has_places, node_there};
use nc_names::{Many, Memory, Step};
use nc_schema::{Node, Schema, Violation};
use nc_tree::Listed;
use std::alloc::Global;

// The first of the choices that begin at a data node.
fn first_of_choices(
    alloc: Global,
    outline: &Outline<'_>,
    config: &Listed,
    steps: &[Step],
    here: Here,
    child: (u32, &Node),
) -> Result<Option<Violation>, Memory>
    requires here { IsWithin config.now here }
    requires outline { IsOutline outline.now }
    ensures { IfOk result (λ it. it ≡ first (begun_choices outline.now.schema.now
        (place_here config.now steps.now here) child.entry.0 child.entry.1.now.cases)) }
{
    let (number, node) = child;
    for case in node.cases.as_slice() {
        let found = first_of_choice(alloc, outline, config, steps, here, (number, case.choice))?;
        if is_found(&found) {
            return Ok(found);
        }
    }
    Ok(None)
}

// The first of `unique` statements over some entries.
fn first_of_statements<'a>(
    alloc: Global,
    children: &Children<'a>,
    config: &'a Listed,
    entries: &[Spot<'_>],
    uniques: &[Many<u32>],
) -> Result<Option<Violation>, Memory>
    requires { AreWithin config.now entries.now }
    ensures { IfOk result (λ it. it ≡ first
        (flat_map (violations.unique_violations children.now (places_in config.now entries.now))
        uniques.now)) }
{
    for leafs in uniques {
        let found = first_repeated(alloc, children, config, entries, leafs.as_slice())?;
        if is_found(&found) {
            return Ok(found);
        }
    }
    Ok(None)
}

// The first of the `unique` statements of a data node.
fn first_of_uniques<'a>(
    alloc: Global,
    outline: &Outline<'a>,
    config: &'a Listed,
    steps: &[Step],
    here: Here,
    child: (u32, &Node),
) -> Result<Option<Violation>, Memory>
    requires here { IsWithin config.now here }
    requires outline { IsOutline outline.now }
    ensures { IfOk result (λ it. it ≡ first (uniques_of outline.now.schema.now
        (place_here config.now steps.now here) child.entry.0 child.entry.1.now)) }
{
    let (_, node) = child;
    if node.uniques.is_empty() {
        return Ok(None);
    }
    if !has_places(node.kind) {
        return Ok(None);
    }
    let entries = entries(alloc, outline.schema, config, steps, here, child)?;
    let uniques = node.uniques.as_slice();
    let found = first_of_statements(
        alloc,
        &outline.children,
        config,
        entries.as_slice(),
        uniques,
    )?;
    Ok(found)
}

/// Whether nothing is asked of a data node, as of most: it is of no case, and its count and its entries are
/// free.
#[tactic(auto, using(crate::proofs::FreeLemmas::none_asked))]
pub(crate) fn is_free(node: &Node) -> bool
    ensures { (tables : Tables) (place : Place) (number : ℕ) → result ≡ true →
        violations.child_violations tables place number node.now ≡ [] }
{
    if !node.cases.is_empty() {
        return false;
    }
    if !node.uniques.is_empty() {
        return false;
    }
    !is_bounded(node)
}

// The first violation of a data node of a place.
fn first_of_child<'a>(
    alloc: Global,
    outline: &Outline<'a>,
    config: &'a Listed,
    steps: &[Step],
    here: Here,
    child: (u32, &Node),
) -> Result<Option<Violation>, Memory>
    requires here { IsWithin config.now here }
    requires outline { IsOutline outline.now }
    ensures { IfOk result (λ it. it ≡ first (violations.child_violations outline.now.schema.now
        (place_here config.now steps.now here) child.entry.0 child.entry.1.now)) }
{
    let begun = first_of_choices(alloc, outline, config, steps, here, child)?;
    if is_found(&begun) {
        return Ok(begun);
    }
    let counted = first_of_counts(alloc, outline.schema, config, steps, here, child)?;
    if is_found(&counted) {
        return Ok(counted);
    }
    let repeated = first_of_uniques(alloc, outline, config, steps, here, child)?;
    Ok(repeated)
}

// The first violation of the data node of a number, which stands in the place.
fn first_of_node<'a>(
    alloc: Global,
    outline: &Outline<'a>,
    config: &'a Listed,
    steps: &[Step],
    here: Here,
    number: u32,
) -> Result<Option<Violation>, Memory>
    requires here { IsWithin config.now here }
    requires outline { IsOutline outline.now }
    ensures { IfOk result (λ it. it ≡ first (child_at outline.now.schema.now
        (place_here config.now steps.now here) number)) }
{
    match outline.schema.node(number) {
        Some(node) => {
            if is_free(node) {
                return Ok(None);
            }
            let found = first_of_child(alloc, outline, config, steps, here, (number, node))?;
            Ok(found)
        }
        None => Ok(None),
    }
}

// The first violation of the data nodes of a place.
fn first_of_nodes<'a>(
    alloc: Global,
    outline: &Outline<'a>,
    config: &'a Listed,
    steps: &[Step],
    here: Here,
) -> Result<Option<Violation>, Memory>
    requires here { IsWithin config.now here }
    requires outline { IsOutline outline.now }
    ensures { IfOk result (λ it. it ≡ first (nodes_from outline.now.schema.now
        (place_here config.now steps.now here) 0)) }
{
    for number in outline.children.in_parent(node_there(steps)) {
        let found = first_of_node(alloc, outline, config, steps, here, *number)?;
        if is_found(&found) {
            return Ok(found);
        }
    }
    Ok(None)
}

// The first violation of the choices of a place that have no data nodes.
fn first_of_bares(
    alloc: Global,
    outline: &Outline<'_>,
    config: &Listed,
    steps: &[Step],
    here: Here,
) -> Result<Option<Violation>, Memory>
    requires here { IsWithin config.now here }
    requires outline { IsOutline outline.now }
    ensures { IfOk result (λ it. it ≡ first (bare_from outline.now.schema.now
        (place_here config.now steps.now here) 0)) }
{
    for choice in outline.bares.as_slice() {
        let found = first_of_bare(alloc, outline.schema, config, steps, here, choice)?;
        if is_found(&found) {
            return Ok(found);
        }
    }
    Ok(None)
}

// The first violation of a place.
fn first_at<'a>(
    alloc: Global,
    outline: &Outline<'a>,
    config: &'a Listed,
    steps: &[Step],
    here: Here,
) -> Result<Option<Violation>, Memory>
    requires here { IsWithin config.now here }
    requires outline { IsOutline outline.now }
    ensures { IfOk result (λ it. it ≡ first (violations.violations_at outline.now.schema.now
        (place_here config.now steps.now here))) }
{
    let found = first_of_nodes(alloc, outline, config, steps, here)?;
    if is_found(&found) {
        return Ok(found);
    }
    let bare = first_of_bares(alloc, outline, config, steps, here)?;
    Ok(bare)
}

// The first violation of all places. Those in which nothing is asked are left out.
fn first_of_places<'a>(
    alloc: Global,
    outline: &Outline<'a>,
    config: &'a Listed,
) -> Result<Option<Violation>, Memory>
    requires { IsOutline outline.now }
    ensures { IfOk result (λ it. it
        ≡ slice_get (violations.structural_violations outline.now.schema.now config.now) 0) }
{
    let spots = spots_asked(alloc, outline, config)?;
    for spot in spots.as_slice() {
        let found = first_at(alloc, outline, config, spot.steps.as_slice(), spot.here)?;
        if is_found(&found) {
            return Ok(found);
        }
    }
    Ok(None)
}

/// The first constraint on which nodes stand that a configuration breaks, place by place in
/// document order, or `None` where it breaks none (RFC 7950 8.1).
pub fn first_structural(
    alloc: Global,
    schema: &Schema,
    config: &Listed,
) -> Result<Option<Violation>, Memory>
    ensures { IfOk result (λ it. it ≡ slice_get (violations.structural_violations schema.now config.now) 0) }
{
    let outline = outline_of(alloc, schema)?;
    let found = first_of_places(alloc, &outline, config)?;
    Ok(found)
}

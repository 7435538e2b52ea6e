//! In which places something is asked: those of the other data nodes break nothing, and are not listed.
ghost use Rattle.std.specs.Prelude.{◌≡◌, ℕ, true, IfOk};
ghost use Rattle.std.specs.List.{flat_map, list_all};
ghost use Rattle.nc_schema.specs.Violations as violations;
ghost use Rattle.nc_defaults.specs.Sought as marked;
ghost use Rattle.nc_defaults.specs.Within.{AreWithin, places_in};
ghost use Rattle.nc_validate.specs.inner.Asked.{Covers, CoversNode};
ghost use Rattle.nc_validate.specs.inner.Outlines.{IsOutline};

use crate::outline::Outline;
use crate::structural::is_free;
use nc_defaults::{Spot, is_sought, places_from, places_sought, top};
use nc_names::{Many, Memory};
use nc_schema::Schema;
use nc_tree::Listed;
use std::alloc::Global;

// So many data nodes without a mark.
fn no_marks(alloc: Global, count: usize) -> Result<Many<bool>, Memory> {
    let mut marks = Many::new(alloc);
    for place in 0..count {
        marks.push(false)?;
    }
    Ok(marks)
}

// Marks a data node, or the top.
fn mark(marks: &mut Many<bool>, parent: Option<u32>) {
    let place = match parent {
        None => 0,
        Some(number) => number as usize + 1,
    };
    if place < marks.len() {
        marks.set(place, true);
    }
}

// Marks the parent of a data node of which something is asked, or below which something is.
fn mark_above(marks: &mut Many<bool>, schema: &Schema, number: u32) {
    let Some(node) = schema.node(number) else {
        return;
    };
    if is_sought(marks.as_slice(), Some(number)) || !is_free(node) {
        mark(marks, node.parent);
    }
}

/// Marks for the data nodes in whose instances something is asked, and for those above them. What stands in a
/// data node has a higher number.
pub(crate) fn marks_of(alloc: Global, schema: &Schema) -> Result<Many<bool>, Memory> {
    let mut marks = no_marks(alloc, schema.nodes() as usize + 1)?;
    for choice in schema.choices() {
        mark(&mut marks, choice.parent);
    }
    let mut left = schema.nodes();
    while left > 0 {
        left -= 1;
        mark_above(&mut marks, schema, left);
    }
    Ok(marks)
}

// Whether nothing is asked of a data node, nor below it, unless its parent is marked.
fn covers_node(schema: &Schema, marks: &[bool], number: u32) -> bool
    ensures { result ≡ true → CoversNode schema.now marks.now number }
{
    let Some(node) = schema.node(number) else {
        return true;
    };
    let above = is_sought(marks, node.parent);
    if above {
        return true;
    }
    let own = is_sought(marks, Some(number));
    if own {
        return false;
    }
    is_free(node)
}

fn covers_nodes(schema: &Schema, marks: &[bool]) -> bool
    ensures { result ≡ true → (number : ℕ) → CoversNode schema.now marks.now number }
{
    let count = schema.nodes();
    for number in 0..count {
        if !covers_node(schema, marks, number) {
            return false;
        }
    }
    true
}

// Whether what has a choice is marked.
fn covers_choices(schema: &Schema, marks: &[bool]) -> bool
    ensures { result ≡ list_all (λ choice. marked.is_sought marks.now choice.parent) schema.now.choices }
{
    schema
        .choices()
        .iter()
        .all(|choice| is_sought(marks, choice.parent))
}

/// Whether all is marked in whose instances, or below which, something is asked.
pub(crate) fn covers(schema: &Schema, marks: &[bool]) -> bool
    ensures { result ≡ true → Covers schema.now marks.now }
{
    if !covers_choices(schema, marks) {
        return false;
    }
    covers_nodes(schema, marks)
}

/// The places of a configuration in document order, without some that break nothing.
pub(crate) fn spots_asked<'a>(
    alloc: Global,
    outline: &Outline<'_>,
    config: &'a Listed,
) -> Result<Many<Spot<'a>>, Memory>
    requires { IsOutline outline.now }
    ensures broken { IfOk result (λ it. flat_map
        (violations.violations_at outline.now.schema.now) (places_in config.now it)
        ≡ violations.structural_violations outline.now.schema.now config.now) }
    ensures within { IfOk result (AreWithin config.now) }
{
    let children = &outline.children;
    let here = top(config);
    let marks = marks_of(alloc, outline.schema)?;
    let sought = marks.as_slice();
    if !covers(outline.schema, sought) {
        let all = places_from(alloc, children, config, &[], here)?;
        return Ok(all);
    }
    let spots = places_sought(alloc, children, sought, config, &[], here)?;
    Ok(spots)
}

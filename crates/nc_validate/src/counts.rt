//! How many instances of a data node have to stand in a place, and how many may (RFC 7950 7.6.5,
//! 7.7.5, 7.7.6).
ghost use Rattle.std.specs.Prelude.{◌≡◌, ◌||◌, ◌<◌, ◌≤◌, false, ltb, is_some, IfOk};
ghost use Rattle.std.specs.Option.{option_map_or};
ghost use Rattle.nc_schema.specs.Kinds as kinds;
ghost use Rattle.nc_defaults.specs.Within.{IsWithin, place_here};
ghost use Rattle.nc_validate.specs.inner.First.{first};
ghost use Rattle.nc_validate.specs.inner.Children.{IsEnough, count_fault, count_violations};

use crate::choices::is_required;
use crate::faults::violation_below;
use nc_defaults::{Here, count_up_to};
use nc_names::{CauseKind, Memory, Step};
use nc_schema::{Kind, Node, Schema, Violation};
use nc_tree::Listed;
use std::alloc::Global;

fn has_entries(kind: Kind) -> bool
    ensures { result ≡ kinds.has_entries kind }
{
    match kind {
        Kind::LeafList | Kind::List => true,
        Kind::Container { .. } | Kind::Leaf => false,
    }
}

fn is_leaf(kind: Kind) -> bool
    ensures { result ≡ kinds.is_leaf kind }
{
    match kind {
        Kind::Leaf => true,
        Kind::Container { .. } | Kind::LeafList | Kind::List => false,
    }
}

fn is_past(count: u64, most: Option<u64>) -> bool
    ensures { result ≡ option_map_or (λ most. ltb most count) most false }
{
    match most {
        Some(most) => most < count,
        None => false,
    }
}

/// Whether a count of a data node is bounded at all.
pub(crate) fn is_bounded(node: &Node) -> bool
    ensures { result ≡ (node.now.mandatory || (ltb 0 node.now.least || is_some node.now.most)) }
{
    node.mandatory || node.least > 0 || node.most.is_some()
}

// What is broken where so many instances stand, and where they are required.
fn fault_of(node: &Node, count: u64, required: bool) -> Option<CauseKind>
    ensures { result ≡ count_fault node.now count required }
{
    if is_leaf(node.kind) && node.mandatory && count == 0 && required {
        return Some(CauseKind::Mandatory);
    }
    if has_entries(node.kind) && count < node.least && required {
        return Some(CauseKind::TooFew);
    }
    if has_entries(node.kind) && is_past(count, node.most) {
        return Some(CauseKind::TooMany);
    }
    None
}

// A number of instances past which one more breaks or mends nothing, where they are among so many rows.
fn enough_of(node: &Node, rows: u64) -> u64
    ensures { IsEnough node.now rows result }
{
    let least = if node.least > 0 { node.least } else { 1 };
    match node.most {
        Some(most) => past_most(least, most, rows),
        None => least,
    }
}

// The first number past a bound, where so many rows may have so many instances.
fn past_most(least: u64, most: u64, rows: u64) -> u64
    ensures least { least ≤ result }
    ensures most { most < rows → most < result }
{
    if most < rows && least <= most {
        return most + 1;
    }
    least
}

/// What the number of instances of a data node in a place breaks. It counts no further than to where one more
/// makes no difference.
pub(crate) fn first_of_counts(
    alloc: Global,
    schema: &Schema,
    config: &Listed,
    steps: &[Step],
    here: Here,
    child: (u32, &Node),
) -> Result<Option<Violation>, Memory>
    requires { IsWithin config.now here }
    ensures { IfOk result (λ it. it ≡ first (count_violations schema.now
        (place_here config.now steps.now here) child.entry.0 child.entry.1.now)) }
{
    let (number, node) = child;
    if !is_bounded(node) {
        return Ok(None);
    }
    let enough = enough_of(node, here.to - here.from);
    let count = count_up_to(config, steps.len(), here.from, here.to, number, enough);
    let required = is_required(schema, config, steps, here, node.cases.as_slice());
    match fault_of(node, count, required) {
        Some(kind) => Ok(Some(violation_below(alloc, kind, steps, number)?)),
        None => Ok(None),
    }
}

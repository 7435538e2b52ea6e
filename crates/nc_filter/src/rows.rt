//! Rows by the data node at a depth of their paths.
ghost use Rattle.std.specs.Prelude.{◌≡◌, ◌∷◌, ◌++◌, [], if◌then◌else◌, ◌+◌, ◌<◌, ◌^◌, ◌==◌, not};
ghost use Rattle.std.specs.Prelude.{length, IfOk, OnSome, map};
ghost use Rattle.std.specs.List.{filter, prefix_len};
ghost use Rattle.nc_filter.specs.inner.Lists.{IsSame};
ghost use Rattle.nc_filter.specs.inner.Picks as picks;

use nc_names::{Many, Memory, Row};
use std::alloc::Global;

/// A row with the number of its instance.
#[derive(Drop)]
pub(crate) struct Spot<'a> {
    pub(crate) number: usize,
    pub(crate) row: &'a Row,
}

/// The data node at a depth of the path to a row.
pub(crate) fn node_at(depth: usize, row: &Row) -> Option<u32>
    ensures value { result ≡ picks.node_at depth row.now }
    ensures within { OnSome result (depth + 1 < 2 ^ 64) }
{
    let steps = row.path.steps.as_slice();
    if depth < steps.len() {
        Some(steps[depth].node)
    } else {
        None
    }
}

/// The data node at a depth of the path to the first of some rows.
pub(crate) fn first_node(depth: usize, rows: &[&Row]) -> Option<u32>
    ensures value { result ≡ picks.first_node depth (map (λ row. row.now) rows.now) }
    ensures within { OnSome result (depth + 1 < 2 ^ 64) }
{
    match rows.first() {
        Some(row) => node_at(depth, row),
        None => None,
    }
}

fn is_number(one: Option<u32>, other: Option<u32>) -> bool
    ensures { result ≡ picks.is_number one other }
{
    match (one, other) {
        (None, None) => true,
        (Some(a), Some(b)) => a == b,
        _ => false,
    }
}

/// Those of some rows that are at a data node, or below it.
pub(crate) fn with_node<'a>(
    alloc: Global,
    depth: usize,
    node: u32,
    rows: &[&'a Row],
) -> Result<Many<&'a Row>, Memory>
    ensures { IfOk result (λ it. map (λ row. row.now) it
        ≡ filter (picks.has_node depth node) (map (λ row. row.now) rows.now)) }
{
    let mut out = Many::new(alloc);
    for row in rows {
        if is_number(node_at(depth, row), Some(node)) {
            out.push(*row)?;
        }
    }
    Ok(out)
}

/// How many of some rows, from the first on, have a data node at a depth, or none there.
pub(crate) fn count_node(depth: usize, node: Option<u32>, rows: &[&Row]) -> usize
    ensures { result ≡ prefix_len (λ row. picks.is_number (picks.node_at depth row.now) node) rows.now }
{
    rows.iter()
        .take_while(|row| is_number(node_at(depth, row), node))
        .count()
}

/// Some rows in the order of the data nodes at a depth.
pub(crate) fn by_node<'a>(depth: usize, rows: Many<&'a Row>) -> Result<Many<&'a Row>, Memory>
    ensures { IfOk result (λ it. IsSame (map (λ row. row.now) rows.entry) (map (λ row. row.now) it)) }
{
    let mut items = rows.into_vec();
    items.sort_by_key(|row| node_at(depth, row))?;
    Ok(Many::from_vec(items))
}

/// Puts rows at the end of others.
pub(crate) fn extended<'a>(rows: Many<&'a Row>, more: &[&'a Row]) -> Result<Many<&'a Row>, Memory>
    ensures { IfOk result (λ it. map (λ row. row.now) it
        ≡ map (λ row. row.now) rows.entry ++ map (λ row. row.now) more.now) }
{
    let mut rows = rows;
    for row in more {
        rows.push(*row)?;
    }
    Ok(rows)
}

/// Puts a row at the end of others, if it passes.
pub(crate) fn push_if<'a>(
    rows: Many<&'a Row>,
    passes: bool,
    row: &'a Row,
) -> Result<Many<&'a Row>, Memory>
    ensures { IfOk result (λ it. map (λ row. row.now) it ≡ (if passes
        then map (λ row. row.now) rows.entry ++ row.now ∷ [] else map (λ row. row.now) rows.entry)) }
{
    let mut rows = rows;
    if passes {
        rows.push(row)?;
    }
    Ok(rows)
}

/// A copy of a list of rows, which stay where they are.
pub(crate) fn listed<'a>(alloc: Global, rows: &[&'a Row]) -> Result<Many<&'a Row>, Memory>
    ensures { IfOk result (λ it. map (λ row. row.now) it ≡ map (λ row. row.now) rows.now) }
{
    extended(Many::new(alloc), rows)
}

/// Whether the path to a row ends at a depth.
pub(crate) fn ends(depth: usize, row: &Row) -> bool
    requires { depth + 1 < 2 ^ 64 }
    ensures { result ≡ picks.ends depth row.now }
{
    row.path.steps.len() == depth + 1
}

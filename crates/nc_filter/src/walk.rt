//! The filter from the top down: which of some rows the elements of a level select (RFC 6241 6.2).
ghost use Rattle.std.specs.Prelude.{◌≡◌, ◌+◌, ◌<◌, ◌≤◌, ◌^◌, ◌&&◌, ◌||◌, List, IfOk, OnSome};
ghost use Rattle.std.specs.Prelude.{length, map, take};
ghost use Rattle.std.specs.List.{list_any};
ghost use Rattle.nc_names.specs.declared.path.Row.{Row};
ghost use Rattle.nc_filter.specs.inner.Names as names;
ghost use Rattle.nc_filter.specs.inner.Picks as picks;
ghost use Rattle.nc_filter.specs.inner.Tables.{IsIndex};

use crate::basis::Basis;
use crate::descent::pick_wants;
use crate::level::{containments, has_level_of_matches, has_match, has_selection, levels_of};
use crate::names::Level;
use crate::rows::{by_node, count_node, extended, first_node, listed, with_node};
use crate::spots::push_rows;
use crate::texts::matched;
use crate::wants::first_wants;
use nc_message::Elem;
use nc_names::{Many, Memory, Row, tail};

// The first of some rows, so many.
fn front<'a, 'r>(rows: &'r [&'a Row], count: usize) -> &'r [&'a Row]
    requires { count ≤ length rows.now }
    ensures { result.now ≡ take count rows.now }
{
    &rows[..count]
}

// Adds those of some rows that the elements of a level pick, in the instances at a depth.
#[cycle(pick)]
fn pick_level<'a>(
    basis: &Basis<'a>,
    depth: usize,
    level: &Level<'a>,
    rows: &[&'a Row],
    out: Many<&'a Row>,
) -> Result<Many<&'a Row>, Memory>
    ensures { IfOk result (λ it. (all : List Row) → IsIndex basis.now.index.table all →
        names.AreNames level.now.items level.now.elems level.now.elems →
        picks.Adds (map (λ row. row.now) out.entry) (map (λ row. row.now) it)
        (picks.picked basis.now.schema.now all depth (map (λ elem. elem.now) level.now.elems))
        (map (λ row. row.now) rows.now)) }
{
    let mut out = out;
    let mut rest = rows;
    'nodes: while !rest.is_empty() {
        let node = first_node(depth, rest);
        let count = count_node(depth, node, rest);
        let here = front(rest, count);
        out = pick_some(basis, depth, node, level, here, out)?;
        rest = tail(rest, count);
    }
    Ok(out)
}

// Adds those of some rows whose path has one data node at a depth, or none, and that the elements pick.
#[cycle(pick)]
fn pick_some<'a>(
    basis: &Basis<'a>,
    depth: usize,
    node: Option<u32>,
    level: &Level<'a>,
    rows: &[&'a Row],
    out: Many<&'a Row>,
) -> Result<Many<&'a Row>, Memory>
    requires { OnSome node (depth + 1 < 2 ^ 64) }
    ensures { IfOk result (λ it. (all : List Row) → IsIndex basis.now.index.table all →
        names.AreNames level.now.items level.now.elems level.now.elems →
        picks.Adds (map (λ row. row.now) out.entry) (map (λ row. row.now) it)
        (λ row. picks.is_number (picks.node_at depth row) node
        && picks.picked basis.now.schema.now all depth (map (λ elem. elem.now) level.now.elems) row)
        (map (λ row. row.now) rows.now)) }
{
    match node {
        Some(number) => Ok(pick_node(basis, depth, number, level, rows, out)?),
        None => Ok(out),
    }
}

// Adds those of some rows that are at or below one data node and that the elements pick.
#[cycle(pick)]
fn pick_node<'a>(
    basis: &Basis<'a>,
    depth: usize,
    node: u32,
    level: &Level<'a>,
    rows: &[&'a Row],
    out: Many<&'a Row>,
) -> Result<Many<&'a Row>, Memory>
    requires { depth + 1 < 2 ^ 64 }
    ensures { IfOk result (λ it. (all : List Row) → IsIndex basis.now.index.table all →
        names.AreNames level.now.items level.now.elems level.now.elems →
        picks.Adds (map (λ row. row.now) out.entry) (map (λ row. row.now) it)
        (λ row. picks.has_node depth node row
        && picks.picks_at basis.now.schema.now all depth (map (λ elem. elem.now) level.now.elems) row node)
        (map (λ row. row.now) rows.now)) }
{
    let named = level.named(basis.alloc, basis.schema, node)?;
    let ones = named.as_slice();
    let rows = with_node(basis.alloc, depth, node, rows)?;
    let here = rows.as_slice();
    if has_selection(ones) {
        let found = extended(out, here)?;
        return Ok(found);
    }
    let out = matched(basis.alloc, depth, ones, here, out)?;
    let inner = containments(basis.alloc, ones)?;
    let lower = inner.as_slice();
    let found = pick_within(basis, depth + 1, lower, here, out)?;
    Ok(found)
}

/// Adds those of some rows that the level of one of the elements selects, in the instances at a depth.
#[cycle(pick)]
pub(crate) fn pick_within<'a>(
    basis: &Basis<'a>,
    depth: usize,
    elems: &[&'a Elem],
    rows: &[&'a Row],
    out: Many<&'a Row>,
) -> Result<Many<&'a Row>, Memory>
    ensures { IfOk result (λ it. (all : List Row) → IsIndex basis.now.index.table all →
        picks.Adds (map (λ row. row.now) out.entry) (map (λ row. row.now) it)
        (λ row. list_any (picks.within basis.now.schema.now all depth row)
        (map (λ elem. elem.now) elems.now))
        (map (λ row. row.now) rows.now)) }
{
    if has_match(elems) {
        let found = pick_guarded(basis, depth, elems, rows, out)?;
        return Ok(found);
    }
    let found = pick_open(basis, depth, elems, rows, out)?;
    Ok(found)
}

// Adds those of some rows that the level of one of the elements picks, where its content matches hold.
#[cycle(pick)]
fn pick_open<'a>(
    basis: &Basis<'a>,
    depth: usize,
    elems: &[&'a Elem],
    rows: &[&'a Row],
    out: Many<&'a Row>,
) -> Result<Many<&'a Row>, Memory>
    ensures { IfOk result (λ it. (all : List Row) → IsIndex basis.now.index.table all →
        picks.Adds (map (λ row. row.now) out.entry) (map (λ row. row.now) it)
        (λ row. list_any (picks.opens basis.now.schema.now all depth row) (map (λ elem. elem.now) elems.now))
        (map (λ row. row.now) rows.now)) }
{
    if has_level_of_matches(elems) {
        let found = extended(out, rows)?;
        return Ok(found);
    }
    let below = levels_of(basis.alloc, elems)?;
    let level = Level::new(basis.alloc, below)?;
    let copy = listed(basis.alloc, rows)?;
    let sorted = by_node(depth, copy)?;
    let some = sorted.as_slice();
    let found = pick_level(basis, depth, &level, some, out)?;
    Ok(found)
}

// Adds those of some rows that the levels of some elements select, in which content matches stand.
fn pick_guarded<'a>(
    basis: &Basis<'a>,
    depth: usize,
    elems: &[&'a Elem],
    rows: &[&'a Row],
    out: Many<&'a Row>,
) -> Result<Many<&'a Row>, Memory>
    ensures { IfOk result (λ it. (all : List Row) → IsIndex basis.now.index.table all →
        picks.Adds (map (λ row. row.now) out.entry) (map (λ row. row.now) it)
        (λ row. list_any (picks.within basis.now.schema.now all depth row)
        (map (λ elem. elem.now) elems.now))
        (map (λ row. row.now) rows.now)) }
{
    let none = Many::new(basis.alloc);
    let spots = push_rows(none, 0, rows)?;
    let places = spots.as_slice();
    let wants = first_wants(basis.alloc, elems)?;
    let some = wants.as_slice();
    let found = pick_wants(basis, depth, None, places, some, out)?;
    Ok(found)
}

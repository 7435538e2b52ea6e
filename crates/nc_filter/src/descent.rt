//! Groups of elements from level to level down: the rows below instances are visited once, however many
//! groups reach them (RFC 6241 6.2).
ghost use Rattle.std.specs.Prelude.{◌≡◌, ◌||◌, ◌+◌, ◌<◌, ◌^◌, Bool, List, IfOk, map};
ghost use Rattle.std.specs.List.{list_any};
ghost use Rattle.nc_names.specs.declared.path.Row.{Row};
ghost use Rattle.nc_filter.specs.declared.rows.Spot.{Spot};
ghost use Rattle.nc_filter.specs.inner.Instances as inner;
ghost use Rattle.nc_filter.specs.inner.Picks as picks;
ghost use Rattle.nc_filter.specs.inner.Runs as runs;
ghost use Rattle.nc_filter.specs.inner.Tables.{IsIndex};

use crate::asked::asked_spots;
use crate::basis::Basis;
use crate::flat::pick_labels;
use crate::groups::Group;
use crate::reach::groups;
use crate::rows::Spot;
use crate::runs::{Run, cut};
use crate::spots::spots;
use crate::table::Table;
use crate::wants::{Want, wants};
use nc_names::{Many, Memory, Row};

// Adds what groups of elements select in instances in which their content matches hold.
#[cycle(descend)]
fn pick_groups<'a>(
    basis: &Basis<'a>,
    depth: usize,
    whole: &[Run<'a>],
    groups: Many<Group<'a>>,
    out: Many<&'a Row>,
) -> Result<Many<&'a Row>, Memory>
    ensures { IfOk result (λ it. (all : List Row) → IsIndex basis.now.index.table all →
        (test : Row → Bool) → list_any test (map (λ row. row.now) it)
        ≡ (list_any test (map (λ row. row.now) out.entry)
        || list_any (runs.told_in (picks.opens basis.now.schema.now all depth) whole.now test)
        groups.entry)) }
{
    let spots = spots(basis.alloc, groups.as_slice(), whole)?;
    let places = spots.as_slice();
    let wants = wants(basis.alloc, groups)?;
    let some = wants.as_slice();
    let found = pick_labels(basis.alloc, basis.schema, depth, places, some, out)?;
    let asked = asked_spots(basis.alloc, basis.schema, depth, places, some)?;
    let here = asked.as_slice();
    if here.is_empty() {
        return Ok(found);
    }
    let more = pick_wants(basis, depth + 1, Some(depth), here, some, found)?;
    Ok(more)
}

/// Adds those of some rows that the elements of wants select, in the instances at a depth that they name.
/// `upper` is the depth of the wants' own instances; `None` where the elements are the first.
#[cycle(descend)]
pub(crate) fn pick_wants<'a>(
    basis: &Basis<'a>,
    depth: usize,
    upper: Option<usize>,
    spots: &[Spot<'a>],
    wants: &[Want<'a>],
    out: Many<&'a Row>,
) -> Result<Many<&'a Row>, Memory>
    ensures { IfOk result (λ it. (all : List Row) → IsIndex basis.now.index.table all →
        inner.IsUnder upper depth → (test : Row → Bool) → list_any test (map (λ row. row.now) it)
        ≡ (list_any test (map (λ row. row.now) out.entry)
        || list_any (inner.wants_pick (inner.elems_pick basis.now.schema.now all depth upper) wants.now test)
        spots.now)) }
{
    let runs = cut(basis, depth, upper, spots)?;
    let whole = runs.as_slice();
    let table = Table::new(basis, upper, whole)?;
    let groups = groups(basis.alloc, &table, whole, upper, wants)?;
    let found = pick_groups(basis, depth, whole, groups, out)?;
    Ok(found)
}

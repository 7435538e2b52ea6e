//! The rows of some instances by their labels.
ghost use Rattle.std.specs.Prelude.{◌≡◌, ◌&&◌, ◌||◌, ℕ, Bool, IfOk, map};
ghost use Rattle.std.specs.List.{list_any};
ghost use Rattle.nc_names.specs.declared.path.Row.{Row};
ghost use Rattle.nc_filter.specs.inner.Labels as labels;
ghost use Rattle.nc_filter.specs.inner.Sets.{bit_of};

use crate::bits::is_set;
use crate::groups::Group;
use crate::labels::row_labels;
use crate::members::joined_members;
use crate::rows::Spot;
use crate::runs::Run;
use crate::slots::with_keys;
use nc_names::{Many, Memory, Row};
use nc_schema::Schema;
use std::alloc::Global;
use std::collections::BTreeMap;

/// Adds the rows of the instance of a number.
pub(crate) fn push_rows<'a>(
    spots: Many<Spot<'a>>,
    number: usize,
    rows: &[&'a Row],
) -> Result<Many<Spot<'a>>, Memory>
    ensures { IfOk result (λ it. (f : ℕ → Row → Bool) → list_any (λ spot. f spot.number spot.row.now) it
        ≡ (list_any (λ spot. f spot.number spot.row.now) spots.entry
        || list_any (f number) (map (λ row. row.now) rows.now))) }
{
    let mut spots = spots;
    for row in rows {
        spots.push(Spot { number, row })?;
    }
    Ok(spots)
}

// The numbers of the instances of some groups.
fn held_in<'a>(alloc: Global, groups: &[Group<'a>]) -> Result<Many<u64>, Memory>
    ensures { IfOk result (λ it. labels.AreHeldIn groups.now it) }
{
    let mut words = Many::new(alloc);
    for group in groups {
        words = joined_members(words, &group.members)?;
    }
    Ok(words)
}

// Adds the rows of an instance, if its number is in a set.
fn push_held<'a>(
    spots: Many<Spot<'a>>,
    held: &[u64],
    run: &Run<'a>,
    number: usize,
) -> Result<Many<Spot<'a>>, Memory>
    ensures { IfOk result (λ it. (f : ℕ → Row → Bool) → list_any (λ spot. f spot.number spot.row.now) it
        ≡ (list_any (λ spot. f spot.number spot.row.now) spots.entry
        || (bit_of held.now number && list_any (f number) (map (λ row. row.now) run.now.rows)))) }
{
    if is_set(held, number) {
        let more = push_rows(spots, number, run.rows.as_slice())?;
        return Ok(more);
    }
    Ok(spots)
}

// The rows of the instances of some numbers, each with the number of its instance.
fn spots_in<'a>(alloc: Global, held: &[u64], whole: &[Run<'a>]) -> Result<Many<Spot<'a>>, Memory>
    ensures { IfOk result (λ it. labels.AreSpotsIn held.now whole.now it) }
{
    let mut out = Many::new(alloc);
    let mut number = 0;
    for run in whole {
        out = push_held(out, held, run, number)?;
        number += 1;
    }
    Ok(out)
}

/// The rows of the instances of some groups, each with the number of its instance.
pub(crate) fn spots<'a>(
    alloc: Global,
    groups: &[Group<'a>],
    whole: &[Run<'a>],
) -> Result<Many<Spot<'a>>, Memory>
    ensures { IfOk result (λ it. labels.AreSpots groups.now whole.now it) }
{
    let held = held_in(alloc, groups)?;
    let found = spots_in(alloc, held.as_slice(), whole)?;
    Ok(found)
}

/// The numbers of some rows by their labels.
pub(crate) fn by_label<'a>(
    alloc: Global,
    schema: &Schema,
    depth: usize,
    spots: &[Spot<'a>],
) -> Result<BTreeMap<Many<u8>, Many<usize>>, Memory>
    ensures { IfOk result (λ it. labels.AreSlots (labels.spot_has schema.now depth) it spots.now spots.now) }
{
    let mut items = BTreeMap::new(alloc);
    let mut number = 0;
    for spot in spots {
        let keys = row_labels(alloc, schema, depth, spot.row)?;
        items = with_keys(alloc, items, keys.as_slice(), number)?;
        number += 1;
    }
    Ok(items)
}

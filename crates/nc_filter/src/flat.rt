//! What levels select but for their containment nodes is looked up by labels, each label once (RFC 6241 6.2).
ghost use Rattle.std.specs.Prelude.{◌≡◌, ◌&&◌, ◌||◌, ℕ, Bool, List, IfOk, map};
ghost use Rattle.std.specs.List.{list_any};
ghost use Rattle.nc_names.specs.declared.path.Row.{Row};
ghost use Rattle.nc_schema.specs.Tables.{Tables};
ghost use Rattle.nc_filter.specs.inner.Labels as labels;
ghost use Rattle.nc_filter.specs.inner.Runs as inner;
ghost use Rattle.nc_filter.specs.inner.Sets.{bit_of};

use crate::bits::is_set;
use crate::rows::{Spot, push_if};
use crate::spots;
use crate::wants::{self, Want, all_labels, union_of};
use nc_names::{Many, Memory, Row};
use nc_schema::Schema;
use std::alloc::Global;
use std::collections::BTreeMap;

// Adds the row of a number, if that of its instance is in a set.
fn with_spot<'a>(
    set: &[u64],
    spots: &[Spot<'a>],
    number: usize,
    out: Many<&'a Row>,
) -> Result<Many<&'a Row>, Memory>
    ensures { IfOk result (λ it. (test : Row → Bool) → list_any test (map (λ row. row.now) it)
        ≡ (list_any test (map (λ row. row.now) out.entry) || labels.at spots.now
        (λ spot. bit_of set.now spot.number && test spot.row.now) number)) }
{
    match spots.get(number) {
        Some(spot) => Ok(push_if(out, is_set(set, spot.number), spot.row)?),
        None => Ok(out),
    }
}

fn with_spots<'a>(
    set: &[u64],
    spots: &[Spot<'a>],
    some: &[usize],
    out: Many<&'a Row>,
) -> Result<Many<&'a Row>, Memory>
    ensures { IfOk result (λ it. (test : Row → Bool) → list_any test (map (λ row. row.now) it)
        ≡ (list_any test (map (λ row. row.now) out.entry) || list_any
        (labels.at spots.now (λ spot. bit_of set.now spot.number && test spot.row.now)) some.now)) }
{
    let mut out = out;
    for number in some {
        out = with_spot(set, spots, *number, out)?;
    }
    Ok(out)
}

// The numbers that a label has.
fn slot<'t>(items: &'t BTreeMap<Many<u8>, Many<usize>>, label: &Many<u8>) -> &'t [usize]
    ensures { result.now ≡ inner.in_slot items.now label.now }
{
    match items.get(label) {
        Some(numbers) => numbers.as_slice(),
        None => &[],
    }
}

// Rows and wants, and their numbers by their labels.
#[derive(Drop)]
struct Labelled<'a, 'w> {
    spots: &'w [Spot<'a>],
    rows: BTreeMap<Many<u8>, Many<usize>>,
    wants: &'w [Want<'a>],
    groups: BTreeMap<Many<u8>, Many<usize>>,
}

// Adds what a label selects.
fn with_label<'a>(
    alloc: Global,
    labelled: &Labelled<'a, '_>,
    label: &Many<u8>,
    out: Many<&'a Row>,
) -> Result<Many<&'a Row>, Memory>
    ensures { IfOk result (λ it. (tables : Tables) (depth : ℕ) →
        labels.AreSlots (labels.spot_has tables depth) labelled.now.rows
        labelled.now.spots.now labelled.now.spots.now →
        labels.AreSlots labels.want_has labelled.now.groups labelled.now.wants.now labelled.now.wants.now →
        (test : Row → Bool) →
        list_any test (map (λ row. row.now) it) ≡ (list_any test (map (λ row. row.now) out.entry)
        || labels.label_picks tables depth labelled.now.spots.now labelled.now.wants.now test label.now)) }
{
    let places = slot(&labelled.rows, label);
    if places.is_empty() {
        return Ok(out);
    }
    let some = slot(&labelled.groups, label);
    let set = union_of(alloc, labelled.wants, some)?;
    let numbers = set.as_slice();
    let found = with_spots(numbers, labelled.spots, places, out)?;
    Ok(found)
}

/// Adds what wants select by their labels.
pub(crate) fn pick_labels<'a>(
    alloc: Global,
    schema: &Schema,
    depth: usize,
    spots: &[Spot<'a>],
    wants: &[Want<'a>],
    out: Many<&'a Row>,
) -> Result<Many<&'a Row>, Memory>
    ensures { IfOk result (λ it. (test : Row → Bool) →
        list_any test (map (λ row. row.now) it) ≡ (list_any test (map (λ row. row.now) out.entry)
        || list_any (labels.want_picks schema.now depth spots.now test) wants.now)) }
{
    let all = all_labels(alloc, wants)?;
    let some = all.as_slice();
    if some.is_empty() {
        return Ok(out);
    }
    let rows = spots::by_label(alloc, schema, depth, spots)?;
    let table = wants::by_label(alloc, wants)?;
    let labelled = Labelled {
        spots,
        rows,
        wants,
        groups: table,
    };
    let mut out = out;
    for label in some {
        out = with_label(alloc, &labelled, label, out)?;
    }
    Ok(out)
}

//! Whether rows have one value at each path.
ghost use Rattle.std.specs.Prelude.{◌≡◌, List, true, IfOk, drop, map};
ghost use Rattle.std.specs.List.{list_all};
ghost use Rattle.std.specs.Ordering.{is_lt};
ghost use Rattle.nc_names.specs.declared.path.Row.{Row};
ghost use Rattle.nc_tree.specs.Finding.{Finds};
ghost use Rattle.nc_edit.specs.inner.Single as inner;

use nc_changes::{are_apart, is_same_value};
use nc_names::{Memory, Row, Step};
use nc_tree::RowsByPath;
use std::alloc::Global;
use std::cmp::Ordering;

// The steps from a depth on.
fn back(depth: usize, row: &Row) -> &[Step]
    ensures { result.now ≡ drop depth row.now.path.steps }
{
    let steps = row.path.steps.as_slice();
    &steps[depth.min(steps.len())..]
}

fn comes_before(steps: &[Step], others: &[Step]) -> bool
    ensures { result ≡ is_lt (inner.steps_order steps.now others.now) }
{
    matches!(steps.cmp(others), Ordering::Less)
}

// Whether rows come in the strict order of their steps from a depth on.
fn are_rising(depth: usize, rows: &[&Row]) -> bool
    ensures { result ≡ inner.rises depth (map (λ row. row.now) rows.now) }
{
    let Some((first, more)) = rows.split_first() else {
        return true;
    };
    let mut last = back(depth, *first);
    for row in more {
        let steps = back(depth, *row);
        if !comes_before(last, steps) {
            return false;
        }
        last = steps;
    }
    true
}

// Whether the first row at a row's path has its value.
fn has_its_value<'a>(found: &RowsByPath<'a>, row: &'a Row) -> bool
    ensures { (rows : List Row) → Finds found.now rows → result ≡ inner.has_its_value rows row.now }
{
    match found.get(row.path.steps.as_slice()) {
        Some(first) => is_same_value(&first.value, &row.value),
        None => false,
    }
}

// Whether that is so of all rows.
fn have_their_values<'a>(found: &RowsByPath<'a>, rows: &[&'a Row]) -> bool
    ensures { (all : List Row) → Finds found.now all →
        result ≡ list_all (inner.has_its_value all) (map (λ row. row.now) rows.now) }
{
    for row in rows {
        if !has_its_value(found, *row) {
            return false;
        }
    }
    true
}

/// Whether rows have one value at each path. Rows that rise from a depth on, as those of a configuration in
/// which the user orders nothing, are gone over once, and others of which no two have one path.
#[tactic(auto, using(crate::proofs::StillLemmas::risen_all, crate::proofs::ApartLemmas::apart_all))]
pub(crate) fn are_single<'a>(alloc: Global, depth: usize, rows: &[&'a Row]) -> Result<bool, Memory>
    ensures { IfOk result (λ it. it ≡ true → list_all
        (inner.has_its_value (map (λ row. row.now) rows.now)) (map (λ row. row.now) rows.now) ≡ true) }
{
    if are_rising(depth, rows) {
        return Ok(true);
    }
    let apart = are_apart(alloc, rows)?;
    if apart {
        return Ok(true);
    }
    let found = RowsByPath::new(alloc, rows)?;
    Ok(have_their_values(&found, rows))
}

//! Rows by the instances at a depth above them, each with the number of the instance in which that stands.
ghost use Rattle.std.specs.Prelude.{◌≡◌, ◌∷◌, ◌++◌, [], ℕ, true, List, IfOk, map, take, min};
ghost use Rattle.nc_names.specs.Same.{is_same_path};
ghost use Rattle.nc_names.specs.declared.path.Row.{Row};
ghost use Rattle.nc_filter.specs.declared.rows.Spot.{Spot};
ghost use Rattle.nc_filter.specs.inner.Keys.{among};
ghost use Rattle.nc_filter.specs.inner.Runs.{AreKnown, AreRuns, IsKnown};
ghost use Rattle.nc_filter.specs.inner.Tables.{IsIndex, has_text};

use crate::basis::Basis;
use crate::instances::instance_keys;
use crate::rows::Spot;
use crate::texts::{bytes_of, with_text};
use nc_names::{Many, Memory, Row, Step, same_steps};
use std::alloc::Global;
use std::collections::BTreeSet;

/// An instance with what it has that elements ask for, and some of the rows at or below it.
#[derive(Drop)]
pub(crate) struct Run<'a> {
    pub(crate) parent: usize,
    pub(crate) above: &'a [Step],
    pub(crate) keys: BTreeSet<Many<u8>>,
    pub(crate) rows: Many<&'a Row>,
}

/// The steps to the instance at a depth above a row.
pub(crate) fn front(depth: usize, steps: &[Step]) -> &[Step]
    ensures { result.now ≡ take depth steps.now }
{
    &steps[..depth.min(steps.len())]
}

// A run with a row more, which stands in the same instance.
fn with_row<'a>(run: Run<'a>, row: &'a Row) -> Result<Run<'a>, Memory>
    ensures same { IfOk result (λ it. (it.parent ≡ run.entry.parent)
        × (it.above ≡ run.entry.above) × (it.keys ≡ run.entry.keys)) }
    ensures more { IfOk result (λ it.
        map (λ row. row.now) it.rows ≡ map (λ row. row.now) run.entry.rows ++ row.now ∷ []) }
{
    let Run {
        parent,
        above,
        keys,
        rows,
    } = run;
    let mut rows = rows;
    rows.push(row)?;
    Ok(Run {
        parent,
        above,
        keys,
        rows,
    })
}

// The set of some keys.
fn key_set(alloc: Global, keys: &[Many<u8>]) -> Result<BTreeSet<Many<u8>>, Memory>
    ensures { IfOk result (λ it. (wanted : List ℕ) → has_text it wanted ≡ among keys.now wanted) }
{
    let mut set = BTreeSet::new(alloc);
    for key in keys {
        set = with_text(set, bytes_of(alloc, key.as_slice())?)?;
    }
    Ok(set)
}

fn new_run<'a>(
    basis: &Basis<'a>,
    upper: Option<usize>,
    parent: usize,
    above: &'a [Step],
    row: &'a Row,
) -> Result<Run<'a>, Memory>
    ensures rows { IfOk result (λ it. (it.parent ≡ parent) × (it.above ≡ above.entry)
        × (map (λ row. row.now) it.rows ≡ row.now ∷ [])) }
    ensures keys { IfOk result (λ it. (all : List Row) → IsIndex basis.now.index.table all →
        IsKnown basis.now.schema.now all upper it) }
{
    let inside = instance_keys(basis.alloc, basis.schema, &basis.index, upper, above)?;
    let keys = key_set(basis.alloc, inside.as_slice())?;
    let mut rows = Many::new(basis.alloc);
    rows.push(row)?;
    Ok(Run {
        parent,
        above,
        keys,
        rows,
    })
}

// Whether a run is that of an instance.
fn is_run(run: &Run, parent: usize, above: &[Step]) -> bool
    ensures { result ≡ true → (run.now.parent ≡ parent) × (run.now.above.now ≡ above.now) }
{
    if run.parent == parent {
        return same_steps(run.above, above);
    }
    false
}

// Runs with a row more.
fn with_next<'a>(
    basis: &Basis<'a>,
    depth: usize,
    upper: Option<usize>,
    runs: Many<Run<'a>>,
    spot: &Spot<'a>,
) -> Result<Many<Run<'a>>, Memory>
    ensures runs { IfOk result (λ it. (spots : List Spot) → AreRuns depth spots runs.entry →
        AreRuns depth (spots ++ spot.now ∷ []) it) }
    ensures known { IfOk result (λ it. (all : List Row) → IsIndex basis.now.index.table all →
        AreKnown basis.now.schema.now all upper runs.entry → AreKnown basis.now.schema.now all upper it) }
{
    let number = spot.number;
    let row = spot.row;
    let above = front(depth, row.path.steps.as_slice());
    let mut runs = runs;
    let Some(last) = runs.pop() else {
        runs.push(new_run(basis, upper, number, above, row)?)?;
        return Ok(runs);
    };
    if is_run(&last, number, above) {
        runs.push(with_row(last, row)?)?;
        return Ok(runs);
    }
    runs.push(last)?;
    runs.push(new_run(basis, upper, number, above, row)?)?;
    Ok(runs)
}

/// Rows by the instances at a depth above them.
pub(crate) fn cut<'a>(
    basis: &Basis<'a>,
    depth: usize,
    upper: Option<usize>,
    spots: &[Spot<'a>],
) -> Result<Many<Run<'a>>, Memory>
    ensures runs { IfOk result (λ it. AreRuns depth spots.now it) }
    ensures known { IfOk result (λ it. (all : List Row) → IsIndex basis.now.index.table all →
        AreKnown basis.now.schema.now all upper it) }
{
    let mut runs = Many::new(basis.alloc);
    for spot in spots {
        runs = with_next(basis, depth, upper, runs, spot)?;
    }
    Ok(runs)
}

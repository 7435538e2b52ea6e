//! Marks of paths, which tell in one pass that no two rows have one path.
ghost use Rattle.std.specs.Prelude.{◌≡◌, ◌++◌, ◌∷◌, [], ℕ, List, true, fold, map, IfOk};
ghost use Rattle.nc_names.specs.declared.path.Row.{Row};
ghost use Rattle.nc_changes.specs.inner.Marks as inner;
ghost use Rattle.nc_changes.specs.Apart.{AreApart};
ghost use Rattle.nc_changes.specs.inner.Marks.{HasMarks};

use nc_names::{Memory, Row, Step, Text};
use std::alloc::Global;
use std::collections::BTreeSet;

const FACTOR: u64 = 1_099_511_628_211;

// What stands before each key: no byte is that.
const KEY: u64 = 256;

// A mark with one number more.
fn marked(mark: u64, number: u64) -> u64
    ensures { result ≡ inner.marked mark number }
{
    mark.wrapping_mul(FACTOR).wrapping_add(number)
}

fn with_bytes(mark: u64, bytes: &[u8]) -> u64
    ensures { result ≡ fold inner.marked mark bytes.now }
{
    let mut mark = mark;
    for byte in bytes {
        mark = marked(mark, u64::from(*byte));
    }
    mark
}

fn with_text(mark: u64, text: &Text) -> u64
    ensures { result ≡ inner.with_text mark text.now }
{
    with_bytes(marked(mark, KEY), text.as_str().as_bytes())
}

fn with_step(mark: u64, step: &Step) -> u64
    ensures { result ≡ inner.with_step mark step.now }
{
    let mut mark = marked(mark, u64::from(step.node));
    for key in step.keys.as_slice() {
        mark = with_text(mark, key);
    }
    mark
}

// The mark of a path: one path has one mark, and two have two but by bad luck.
#[tactic(auto, unfolding(crate::specs::inner::Marks::mark_of))]
fn mark_of(steps: &[Step]) -> u64
    ensures { result ≡ inner.mark_of steps.now }
{
    let mut mark = 0;
    for step in steps {
        mark = with_step(mark, step);
    }
    mark
}

fn with_mark(known: BTreeSet<u64>, mark: u64) -> Result<BTreeSet<u64>, Memory>
    ensures { IfOk result (λ it. (rows : List Row) (row : Row) → mark ≡ inner.mark_of row.path.steps →
        HasMarks known rows → HasMarks it (rows ++ row ∷ [])) }
{
    let mut known = known;
    known.insert(mark)?;
    Ok(known)
}

/// Whether it is seen at once that no two rows have one path: no two have one mark. Where two have, they may
/// still have two paths, as a client could bring about.
pub fn are_apart(alloc: Global, rows: &[&Row]) -> Result<bool, Memory>
    ensures { IfOk result (λ it. it ≡ true → AreApart (map (λ row. row.now) rows.now)) }
{
    let mut known = BTreeSet::new(alloc);
    for row in rows {
        let mark = mark_of(row.path.steps.as_slice());
        if known.contains(&mark) {
            return Ok(false);
        }
        known = with_mark(known, mark)?;
    }
    Ok(true)
}

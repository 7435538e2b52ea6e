//! Whether no two rows of a configuration have one path, seen by the nodes at its top.
ghost use Rattle.std.specs.Prelude.{◌≡◌, true, IfOk};
ghost use Rattle.nc_schema.specs.Standing.{block_at};
ghost use Rattle.nc_changes.specs.Apart.{AreApart};

use crate::marks::are_apart;
use nc_names::{Copies, Many, Memory, Path, Row};
use nc_tree::Config;
use std::alloc::Global;

/// So many nodes at the top are looked at, one after the other.
const MOST: u32 = 64;

// The path to the node at the top in which a row stands. Nothing rests on it but time.
fn top_of(alloc: Global, row: &Row) -> Result<Option<Path>, Memory> {
    let Some(step) = row.path.steps.get(0) else {
        return Ok(None);
    };
    let mut steps = Many::new(alloc);
    steps.push(step.copy()?)?;
    Ok(Some(Path { steps }))
}

// Whether it is seen that no two rows at a path and below it have one path: at once, or by a look at each
// where they are at most so many.
fn are_apart_at(alloc: Global, config: &Config, path: &Path, most: u64) -> Result<bool, Memory>
    ensures { IfOk result (λ it. it ≡ true → AreApart (block_at config.now path.now.steps)) }
{
    if config.is_single_at(path)? {
        return Ok(true);
    }
    if config.count_at(path) > most {
        return Ok(false);
    }
    let rows = config.rows_at(path)?;
    let apart = are_apart(alloc, rows.as_slice())?;
    Ok(apart)
}

// Whether it is seen that no two rows of the first node at the top have one path. They go then.
fn is_top_apart(alloc: Global, rest: &mut Config, most: u64) -> Result<bool, Memory>
    ensures { IfOk result (λ it. it ≡ true → AreApart rest.new → AreApart rest.old) }
{
    let Some(row) = rest.row(0) else {
        return Ok(false);
    };
    let Some(path) = top_of(alloc, row)? else {
        return Ok(false);
    };
    let apart = are_apart_at(alloc, rest, &path, most)?;
    if !apart {
        return Ok(false);
    }
    rest.remove(&path)?;
    Ok(true)
}

// The same of all nodes at the top, where there are a few.
fn are_tops_apart(alloc: Global, rest: &mut Config, most: u64) -> Result<bool, Memory>
    ensures { IfOk result (λ it. it ≡ true → AreApart rest.old) }
{
    for _top in 0..MOST {
        let Some(_) = rest.row(0) else {
            return Ok(true);
        };
        let apart = is_top_apart(alloc, rest, most)?;
        if !apart {
            return Ok(false);
        }
    }
    Ok(false)
}

/// Whether it is seen that no two rows of a configuration have one path. Each node at the top is asked by
/// itself, where there are a few: of one below which the user orders nothing it is known, and the rows of
/// another are looked at where they are a quarter of all at most.
pub(crate) fn are_seen_apart(alloc: Global, config: &Config) -> Result<bool, Memory>
    ensures { IfOk result (λ it. it ≡ true → AreApart config.now) }
{
    let mut rest = config.copy()?;
    let seen = are_tops_apart(alloc, &mut rest, config.len() / 4);
    drop(rest);
    seen
}

/// The same by a look at all rows.
pub(crate) fn are_all_apart(alloc: Global, config: &Config) -> Result<bool, Memory>
    ensures { IfOk result (λ it. it ≡ true → AreApart config.now) }
{
    let rows = config.rows(alloc)?;
    let apart = are_apart(alloc, rows.as_slice())?;
    Ok(apart)
}

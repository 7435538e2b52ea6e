//! Searches in the index, for the lowest lock-id of the locks of other sessions.
ghost use Rattle.std.specs.List.Sorted.{IsPartitionedBy};
ghost use Rattle.nc_partial.specs.inner.Entries as inner;
ghost use Rattle.nc_partial.specs.inner.Entries.{IsAscending, is_at, of_others};
ghost use Rattle.nc_partial.specs.inner.Lowest.{IsLowest};

use crate::entry::{Covered, Entry, is_at, is_before, lower, of_other};
use nc_names::{Path, Step, tail};

// Of the locks whose entries have the node itself, or, where `below`, that or one below it: they come first.
fn lowest_in_front(
    entries: &[Entry],
    steps: &[Step],
    below: bool,
    other_than: u32,
) -> Option<Covered>
    requires { IsPartitionedBy (is_at below steps.now) entries.now }
    ensures { IsLowest (of_others other_than (is_at below steps.now)) entries.now result }
{
    let mut lowest = None;
    for entry in entries {
        if !is_at(entry, steps, below) {
            return lowest;
        }
        lowest = lower(lowest, of_other(entry, other_than));
    }
    lowest
}

// Of the locks that have the node itself, or, where `below`, that or one below it.
fn lowest_at(index: &[Entry], steps: &[Step], below: bool, other_than: u32) -> Option<Covered>
    requires { IsAscending index.now }
    ensures { IsLowest (of_others other_than (is_at below steps.now)) index.now result }
{
    let start = index.partition_point(|entry| is_before(entry, steps));
    lowest_in_front(tail(index, start), steps, below, other_than)
}

/// Of the locks that have the node or one above it, so that they lock it.
pub(crate) fn lowest_above(index: &[Entry], steps: &[Step], other_than: u32) -> Option<Covered>
    requires { IsAscending index.now }
    ensures { IsLowest (of_others other_than (inner.is_above steps.now)) index.now result }
{
    let mut lowest = None;
    for depth in 0..=steps.len() {
        let found = lowest_at(index, &steps[..depth], false, other_than);
        lowest = lower(lowest, found);
    }
    lowest
}

// Of the locks that have the node, one above it or one below it.
fn lowest_sharing(index: &[Entry], node: &Path, other_than: u32) -> Option<Covered>
    requires { IsAscending index.now }
    ensures { IsLowest (of_others other_than (inner.shares node.now)) index.now result }
{
    let steps = node.steps.as_slice();
    lower(
        lowest_above(index, steps, other_than),
        lowest_at(index, steps, true, other_than),
    )
}

/// Of the locks that share a node with one of these nodes.
pub(crate) fn lowest_among(index: &[Entry], nodes: &[Path], other_than: u32) -> Option<Covered>
    requires { IsAscending index.now }
    ensures { IsLowest (of_others other_than (inner.shares_some nodes.now)) index.now result }
{
    let mut lowest = None;
    for node in nodes {
        let found = lowest_sharing(index, node, other_than);
        lowest = lower(lowest, found);
    }
    lowest
}

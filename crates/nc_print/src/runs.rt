//! The rows that stand in one element.
ghost use Rattle.std.specs.Prelude.{◌≡◌, ◌+◌, ◌^◌, ◌<◌, ◌≤◌, length, take, drop, map, max, slice_get};
ghost use Rattle.std.specs.Option.{option_copied};
ghost use Rattle.nc_schema.specs.Children.{is_same_number};
ghost use Rattle.nc_protocol.specs.Printed as printed;
ghost use Rattle.nc_print.specs.inner.Runs.{IsRun, run_length};

use nc_names::{Row, Text};

// The data node through which a row's path leads at a depth.
fn node_at(depth: usize, row: &Row) -> Option<u32>
    ensures { result ≡ printed.node_at depth row.now }
{
    match row.path.steps.get(depth) {
        Some(step) => Some(step.node),
        None => None,
    }
}

// Whether a row's path ends at a depth.
fn ends_at(depth: usize, row: &Row) -> bool
    requires { depth + 1 < 2 ^ 64 }
    ensures { result ≡ printed.ends_at depth row.now }
{
    row.path.steps.len() == depth + 1
}

fn same_number(one: Option<u32>, other: Option<u32>) -> bool
    ensures { result ≡ is_same_number one other }
{
    match (one, other) {
        (None, None) => true,
        (Some(one), Some(other)) => one == other,
        _ => false,
    }
}

// Whether a row stands in the element of the row before it.
fn goes_on(depth: usize, before: &Row, row: &Row) -> bool
    requires { depth + 1 < 2 ^ 64 }
    ensures { result ≡ printed.goes_on depth before.now row.now }
{
    same_number(node_at(depth, before), node_at(depth, row)) && !ends_at(depth, row)
}

// How many rows go on from the first one, that one with them.
fn count_run(depth: usize, first: &Row, more: &[&Row]) -> usize
    requires { depth + 1 < 2 ^ 64 }
    ensures { result ≡ run_length (printed.goes_on depth) first.now (map (λ row. row.now) more.now) }
{
    let mut count = 0;
    let mut before = first;
    for row in more {
        if !goes_on(depth, before, row) {
            return count + 1;
        }
        before = *row;
        count += 1;
    }
    count + 1
}

/// How many rows stand first in one element.
pub(crate) fn run(depth: usize, rows: &[&Row]) -> usize
    requires depth { depth + 1 < 2 ^ 64 }
    requires rows { 0 < length rows.now }
    ensures { IsRun (printed.goes_on depth) (map (λ row. row.now) rows.now) result }
{
    match rows.split_first() {
        Some((first, more)) => count_run(depth, first, more),
        None => 0,
    }
}

/// The first row.
pub(crate) fn first<'a>(rows: &[&'a Row]) -> Option<&'a Row>
    ensures { option_copied result ≡ slice_get (map (λ row. row.now) rows.now) 0 }
{
    match rows.first() {
        Some(row) => Some(*row),
        None => None,
    }
}

/// The first rows, so many of them.
#[tactic(auto, using(crate::proofs::RunLemmas::front_is, crate::proofs::RunLemmas::tail_is, crate::proofs::RunLemmas::within_is))]
pub(crate) fn front<'a, 'b>(rows: &'b [&'a Row], count: usize) -> &'b [&'a Row]
    requires { count ≤ length (map (λ row. row.now) rows.now) }
    ensures { map (λ row. row.now) result.now ≡ take count (map (λ row. row.now) rows.now) }
{
    &rows[..count]
}

/// The rows after the first, of which so many are left out.
#[tactic(auto, using(crate::proofs::RunLemmas::front_is, crate::proofs::RunLemmas::tail_is, crate::proofs::RunLemmas::within_is))]
pub(crate) fn tail<'a, 'b>(rows: &'b [&'a Row], count: usize) -> &'b [&'a Row]
    requires { count ≤ length (map (λ row. row.now) rows.now) }
    ensures { map (λ row. row.now) result.now ≡ drop count (map (λ row. row.now) rows.now) }
{
    &rows[count..]
}

/// How many steps the longest path has.
pub(crate) fn longest(rows: &[&Row]) -> usize
    ensures { result ≡ printed.longest (map (λ row. row.now) rows.now) }
{
    let mut most = 0;
    for row in rows {
        most = larger(most, row.path.steps.len());
    }
    most
}

fn larger(one: usize, other: usize) -> usize
    ensures { result ≡ max one other }
{
    one.max(other)
}

/// The value of an element, where its first row is its own.
pub(crate) fn own_value(depth: usize, row: &Row) -> Option<&Text>
    requires { depth + 1 < 2 ^ 64 }
    ensures { option_copied result ≡ printed.own_value depth row.now }
{
    if ends_at(depth, row) {
        row.value.as_ref()
    } else {
        None
    }
}

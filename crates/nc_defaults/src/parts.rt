//! The nodes directly in a place: runs of rows with one next step.
ghost use Rattle.std.specs.Prelude.{◌≡◌, ◌<◌, ◌≤◌, ◌∷◌, List, Some, length, slice_get, option_map, IfSome};
ghost use Rattle.std.specs.List.{filter, find};
ghost use Rattle.std.specs.Option.{option_copied};
ghost use Rattle.nc_names.specs.declared.path.Row.{Row};
ghost use Rattle.nc_schema.specs.Places as places;
ghost use Rattle.nc_defaults.specs.Within.{rows_between};
ghost use Rattle.nc_defaults.specs.inner.Runs.{next_at};

use nc_names::{Row, Step};
use nc_tree::Listed;

/// The row at a place of the configuration.
pub fn row_of(config: &Listed, at: u64) -> &Row
    requires { at < length config.now }
    ensures { slice_get config.now at ≡ Some result.now }
{
    config.row(at).unwrap()
}

/// The step of a row after so many.
pub fn next_of(config: &Listed, depth: usize, at: u64) -> Option<&Step>
    requires { at < length config.now }
    ensures { option_copied result ≡ next_at depth config.now at }
{
    row_of(config, at).path.steps.get(depth)
}

fn is_same_next(step: Option<&Step>, other: Option<&Step>) -> bool
    ensures { result ≡ places.is_same_next (option_copied step.entry) (option_copied other.entry) }
{
    match (step, other) {
        (None, None) => true,
        (Some(step), Some(other)) => step == other,
        _ => false,
    }
}

/// Where the run of rows ends that have the same step after so many as the row at `from`.
pub fn run_end(config: &Listed, depth: usize, from: u64, to: u64) -> u64
    requires order { from < to }
    requires end { to ≤ length config.now }
    ensures later { from < result }
    ensures within { result ≤ to }
    ensures run { places.parts depth (rows_between config.now from to)
        ≡ record { step = next_at depth config.now from; rows = rows_between config.now from result }
        ∷ places.parts depth (rows_between config.now result to) }
{
    let step = next_of(config, depth, from);
    let mut at = from + 1;
    'run: while at < to {
        if !is_same_next(step, next_of(config, depth, at)) {
            return at;
        }
        at += 1;
    }
    at
}

/// Whether a step leads to an instance of a data node.
pub fn is_of(number: u32, step: Option<&Step>) -> bool
    ensures { (rows : List Row) → result
        ≡ places.is_of number (record { step = option_copied step.entry; rows = rows }) }
{
    match step {
        Some(step) => step.node == number,
        None => false,
    }
}

/// How many instances of a data node there are in a place.
pub fn count_parts(config: &Listed, depth: usize, from: u64, to: u64, number: u32) -> u64
    requires order { from ≤ to }
    requires end { to ≤ length config.now }
    ensures { result
        ≡ length (filter (places.is_of number) (places.parts depth (rows_between config.now from to))) }
{
    let mut count = 0;
    let mut at = from;
    'part: while at < to {
        let end = run_end(config, depth, at, to);
        if is_of(number, next_of(config, depth, at)) {
            count += 1;
        }
        at = end;
    }
    count
}

/// How many instances of a data node there are in a place, counted until there are enough: it looks no
/// further then.
pub fn count_up_to(
    config: &Listed,
    depth: usize,
    from: u64,
    to: u64,
    number: u32,
    enough: u64,
) -> u64
    requires order { from ≤ to }
    requires end { to ≤ length config.now }
    ensures at_most { result
        ≤ length (filter (places.is_of number) (places.parts depth (rows_between config.now from to))) }
    ensures all { result < enough → result
        ≡ length (filter (places.is_of number) (places.parts depth (rows_between config.now from to))) }
{
    let mut count = 0;
    let mut at = from;
    'part: while at < to {
        if enough <= count {
            return count;
        }
        let end = run_end(config, depth, at, to);
        if is_of(number, next_of(config, depth, at)) {
            count += 1;
        }
        at = end;
    }
    count
}

/// Where the rows of the instance of a data node begin and end to which a step leads.
pub fn find_part(
    config: &Listed,
    depth: usize,
    from: u64,
    to: u64,
    step: &Step,
) -> Option<(u64, u64)>
    requires order { from ≤ to }
    requires end { to ≤ length config.now }
    ensures part { option_map
        (λ span. record { step = Some step.now; rows = rows_between config.now span.0 span.1 }) result
        ≡ find (λ part. places.is_same_next part.step (Some step.now))
        (filter (places.is_of step.now.node) (places.parts depth (rows_between config.now from to))) }
    ensures order { IfSome result (λ span. span.0 ≤ span.1) }
    ensures end { IfSome result (λ span. span.1 ≤ length config.now) }
{
    let mut at = from;
    'part: while at < to {
        let end = run_end(config, depth, at, to);
        if is_same_next(next_of(config, depth, at), Some(step)) {
            return Some((at, end));
        }
        at = end;
    }
    None
}

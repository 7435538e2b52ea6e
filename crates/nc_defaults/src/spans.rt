//! The runs of rows of a place, listed once, so that the walk does not go over its rows for each child.
ghost use Rattle.std.specs.Prelude.{◌≡◌, ◌≤◌, Some, length, option_map, IfOk};
ghost use Rattle.std.specs.List.{list_any};
ghost use Rattle.std.specs.Option.{option_copied};
ghost use Rattle.nc_schema.specs.Children as numbers;
ghost use Rattle.nc_defaults.specs.inner.Runs.{next_at};
ghost use Rattle.nc_defaults.specs.inner.Spans.{AreRuns, IsRun};

use crate::parts::{next_of, run_end};
use crate::spots::is_same_number;
use nc_names::{Many, Memory, Step};
use nc_tree::Listed;
use std::alloc::Global;

/// A run of rows that have one next step, from one row up to another.
#[derive(Clone, Copy)]
pub(crate) struct Run {
    /// The data node of the step; `None` where the rows are those of the place itself.
    pub(crate) node: Option<u32>,
    /// Where it begins.
    pub(crate) from: u64,
    /// Where it ends.
    pub(crate) to: u64,
}

fn node_of(step: Option<&Step>) -> Option<u32>
    ensures { result ≡ option_map (λ step. step.node) (option_copied step.entry) }
{
    Some(step?.node)
}

/// The runs of a place.
pub(crate) fn runs_of(
    alloc: Global,
    config: &Listed,
    depth: usize,
    from: u64,
    to: u64,
) -> Result<Many<Run>, Memory>
    requires order { from ≤ to }
    requires end { to ≤ length config.now }
    ensures { IfOk result (AreRuns depth config.now from to) }
{
    let mut runs = Many::new(alloc);
    let mut at = from;
    'part: while at < to {
        let end = run_end(config, depth, at, to);
        runs.push(Run {
            node: node_of(next_of(config, depth, at)),
            from: at,
            to: end,
        })?;
        at = end;
    }
    Ok(runs)
}

/// Whether instances of a data node are among them.
pub(crate) fn has_run(runs: &[Run], number: u32) -> bool
    ensures { result ≡ list_any (λ run. numbers.is_same_number run.node (Some number)) runs.now }
{
    runs.iter()
        .any(|run| is_same_number(run.node, Some(number)))
}

/// The step of its rows.
pub(crate) fn step_of<'a>(config: &'a Listed, depth: usize, run: &Run) -> Option<&'a Step>
    requires { IsRun depth config.now run.now }
    ensures step { option_copied result ≡ next_at depth config.now run.now.from }
    ensures order { run.now.from ≤ run.now.to }
    ensures end { run.now.to ≤ length config.now }
{
    next_of(config, depth, run.from)
}

//! The nodes directly in a place, found by their steps.
ghost use Rattle.std.specs.Prelude.{◌≡◌, ◌++◌, ◌∷◌, ◌<◌, ◌≤◌, [], Some, length, option_map, IfOk, IfSome};
ghost use Rattle.std.specs.Option.{option_copied, option_or};
ghost use Rattle.std.specs.BTreeMap.{get};
ghost use Rattle.nc_schema.specs.Places as places;
ghost use Rattle.nc_defaults.specs.Within.{IsWithin, place_here};
ghost use Rattle.nc_refs.specs.inner.Branches.{AddsFirst, AreBranches, step_order};

use nc_defaults::{Here, has_places, next_of, place_below, place_of, run_end};
use nc_names::{Memory, Step};
use nc_schema::Schema;
use nc_tree::Listed;
use std::alloc::Global;
use std::collections::BTreeMap;

/// Where the rows of each node directly in a place begin and end; of a step that comes twice, the first.
#[derive(Drop)]
pub(crate) struct Branches<'a> {
    pub(crate) from: u64,
    pub(crate) to: u64,
    pub(crate) table: BTreeMap<&'a Step, (u64, u64)>,
}

// With the part of a step, unless one is there.
fn with_part<'a>(
    table: BTreeMap<&'a Step, (u64, u64)>,
    step: &'a Step,
    span: (u64, u64),
) -> Result<BTreeMap<&'a Step, (u64, u64)>, Memory>
    ensures { IfOk result (λ it. AddsFirst table.entry it step.now span) }
{
    let mut table = table;
    if table.contains_key(&step) {
        return Ok(table);
    }
    table.insert(step, span)?;
    Ok(table)
}

impl<'a> Branches<'a> {
    /// The nodes among the rows of a place that is that deep.
    pub(crate) fn of(
        alloc: Global,
        config: &'a Listed,
        depth: usize,
        here: Here,
    ) -> Result<Branches<'a>, Memory>
        requires { IsWithin config.now here }
        ensures { IfOk result (λ it. AreBranches config.now depth it.from it.to it.table) }
    {
        let mut table = BTreeMap::new(alloc);
        let mut at = here.from;
        'part: while at < here.to {
            let end = run_end(config, depth, at, here.to);
            if let Some(step) = next_of(config, depth, at) {
                table = with_part(table, step, (at, end))?;
            }
            at = end;
        }
        Ok(Branches {
            from: here.from,
            to: here.to,
            table,
        })
    }

    // Where the rows of the first node to which a step leads begin and end.
    fn span(&self, step: &'a Step) -> Option<(u64, u64)>
        ensures { result ≡ get step_order self.now.table step.entry }
    {
        self.table.get(&step).copied()
    }

    /// The place to which a step leads from the place.
    pub(crate) fn below(
        &self,
        schema: &Schema,
        config: &Listed,
        steps: &[Step],
        here: Here,
        step: &'a Step,
    ) -> Option<Here>
        requires within { IsWithin config.now here }
        requires branches { AreBranches config.now
            (length steps.now) self.now.from self.now.to self.now.table }
        requires from { self.now.from ≡ here.from }
        requires to { self.now.to ≡ here.to }
        ensures place { option_map (place_here config.now (steps.now ++ step.now ∷ [])) result
            ≡ places.place_below schema.now (place_here config.now steps.now here) step.now }
        ensures within { IfSome result (IsWithin config.now) }
    {
        let node = schema.node(step.node)?;
        if !has_places(node.kind) {
            return None;
        }
        match self.span(step) {
            Some(span) => Some(place_of(schema, config, steps, here, node, span)),
            None => place_below(schema, config, steps, here, step),
        }
    }
}

//! The nodes at or below which something is selected.
ghost use Rattle.std.specs.Prelude.{◌≡◌, List, IfOk, map};
ghost use Rattle.std.specs.List.{list_any};
ghost use Rattle.nc_names.specs.Same.{is_at_or_below};
ghost use Rattle.nc_names.specs.declared.path.Row.{Row};
ghost use Rattle.nc_filter.specs.inner.Tables.{AddsPlace, AddsPlaces, ArePlaces};

use nc_names::{Memory, Row, Step};
use std::alloc::Global;
use std::collections::BTreeSet;

/// Nodes at or below which rows stand, each by the steps to it.
#[derive(Drop)]
pub(crate) struct Places<'a> {
    pub(crate) items: BTreeSet<&'a [Step]>,
}

fn with<'a>(items: BTreeSet<&'a [Step]>, steps: &'a [Step]) -> Result<BTreeSet<&'a [Step]>, Memory>
    ensures { IfOk result (λ it. AddsPlace items.entry it steps.now) }
{
    let mut items = items;
    items.insert(steps)?;
    Ok(items)
}

// With a node and all above it.
fn with_all<'a>(
    items: BTreeSet<&'a [Step]>,
    steps: &'a [Step],
) -> Result<BTreeSet<&'a [Step]>, Memory>
    ensures { IfOk result (λ it. AddsPlaces items.entry it steps.now) }
{
    let mut items = with(items, &steps[..0])?;
    let mut at = 0;
    for _step in steps {
        at += 1;
        items = with(items, &steps[..at])?;
    }
    Ok(items)
}

impl<'a> Places<'a> {
    /// The nodes at or below which these rows stand.
    pub(crate) fn new(alloc: Global, rows: &[&'a Row]) -> Result<Places<'a>, Memory>
        ensures { IfOk result (λ it. ArePlaces it.items (map (λ row. row.now) rows.now)) }
    {
        let mut items = BTreeSet::new(alloc);
        for row in rows {
            items = with_all(items, row.path.steps.as_slice())?;
        }
        Ok(Places { items })
    }

    /// Whether one of the rows stands at or below a node.
    pub(crate) fn has(&self, steps: &'a [Step]) -> bool
        ensures { (rows : List Row) → ArePlaces self.now.items rows → result
            ≡ list_any (λ row. is_at_or_below steps.now row.path) rows }
    {
        self.items.contains(&steps)
    }
}

//! Instances by those in which they stand.
ghost use Rattle.std.specs.Prelude.{◌≡◌, IfOk};
ghost use Rattle.nc_filter.specs.inner.Below as inner;

use crate::runs::Run;
use nc_names::{Many, Memory};
use std::alloc::Global;
use std::collections::BTreeMap;

/// The numbers of instances, by the number of that in which they stand.
#[derive(Drop)]
pub(crate) struct Below {
    items: BTreeMap<usize, Many<usize>>,
}

// Takes the numbers of those in an instance out.
fn taken(alloc: Global, items: &mut BTreeMap<usize, Many<usize>>, parent: usize) -> Many<usize>
    ensures found { result ≡ inner.in_number items.old parent }
    ensures others { inner.without_number parent items.old items.new }
{
    match items.remove(&parent) {
        Some(inside) => inside,
        None => Many::new(alloc),
    }
}

// A number more of those in an instance.
fn with_inside(
    alloc: Global,
    items: BTreeMap<usize, Many<usize>>,
    parent: usize,
    number: usize,
) -> Result<BTreeMap<usize, Many<usize>>, Memory>
    ensures { IfOk result (λ it. inner.AddsInside items it parent number) }
{
    let mut items = items;
    let mut inside = taken(alloc, &mut items, parent);
    inside.push(number)?;
    items.insert(parent, inside)?;
    Ok(items)
}

impl Below {
    /// Those of some instances.
    pub(crate) fn of(alloc: Global, runs: &[Run]) -> Result<Below, Memory>
        ensures { IfOk result (inner.IsBelow runs.now) }
    {
        let mut items = BTreeMap::new(alloc);
        let mut number = 0;
        for run in runs {
            items = with_inside(alloc, items, run.parent, number)?;
            number += 1;
        }
        Ok(Below { items })
    }

    /// The numbers of those in the instance of a number.
    pub(crate) fn inside(&self, parent: usize) -> &[usize]
        ensures { result.now ≡ inner.in_number self.now.items parent }
    {
        match self.items.get(&parent) {
            Some(inside) => inside.as_slice(),
            None => &[],
        }
    }
}

//! `unique` (RFC 7950 7.8.3) of one leaf, as in most statements: the first entry with a value that an entry
//! before it has. Tuples of values are for statements with more leafs.
ghost use Rattle.std.specs.Prelude.{◌≡◌, ◌∷◌, [], IfOk};
ghost use Rattle.std.specs.List.{list_any};
ghost use Rattle.nc_schema.specs.Violations as violations;
ghost use Rattle.nc_defaults.specs.Within.{AreWithin, places_in};
ghost use Rattle.nc_validate.specs.inner.Alone.{AddsValues, has_value};
ghost use Rattle.nc_validate.specs.inner.First.{first};
ghost use Rattle.nc_validate.specs.inner.Tuples.{texts};

use crate::faults::violation;
use nc_defaults::{Children, Spot, values_below};
use nc_names::{CauseKind, Memory, Text};
use nc_schema::Violation;
use nc_tree::Listed;
use std::alloc::Global;
use std::collections::BTreeSet;

// With one value more, and whether it was there.
fn with<'a>(seen: BTreeSet<&'a Text>, value: &'a Text) -> Result<(BTreeSet<&'a Text>, bool), Memory>
    ensures adds { IfOk result (λ it. AddsValues seen.entry it.0 (value.now ∷ [])) }
    ensures there { IfOk result (λ it. it.1 ≡ has_value seen.entry value.now) }
{
    let mut seen = seen;
    let added = seen.insert(value)?;
    Ok((seen, !added))
}

// With some values more.
fn with_all<'a>(seen: BTreeSet<&'a Text>, values: &[&'a Text]) -> Result<BTreeSet<&'a Text>, Memory>
    ensures { IfOk result (λ it. AddsValues seen.entry it (texts values.now)) }
{
    let mut seen = seen;
    for value in values {
        let (more, _) = with(seen, *value)?;
        seen = more;
    }
    Ok(seen)
}

// Whether one of some values is there.
fn has_any<'a>(seen: &BTreeSet<&'a Text>, values: &[&'a Text]) -> bool
    ensures { result ≡ list_any (has_value seen.now) (texts values.now) }
{
    for value in values {
        if seen.contains(value) {
            return true;
        }
    }
    false
}

// With the values of an entry, and whether one of them was there. The one value of most is looked up once.
fn with_values<'a>(
    seen: BTreeSet<&'a Text>,
    values: &[&'a Text],
) -> Result<(BTreeSet<&'a Text>, bool), Memory>
    ensures adds { IfOk result (λ it. AddsValues seen.entry it.0 (texts values.now)) }
    ensures there { IfOk result (λ it. it.1 ≡ list_any (has_value seen.entry) (texts values.now)) }
{
    if values.len() != 1 {
        let there = has_any(&seen, values);
        let seen = with_all(seen, values)?;
        return Ok((seen, there));
    }
    let (more, there) = with(seen, values[0])?;
    Ok((more, there))
}

/// The first entry that agrees with one before it in a value of this leaf.
pub(crate) fn first_of_leaf<'a>(
    alloc: Global,
    children: &Children<'a>,
    config: &'a Listed,
    entries: &[Spot<'_>],
    leaf: u32,
) -> Result<Option<Violation>, Memory>
    requires { AreWithin config.now entries.now }
    ensures { IfOk result (λ it. it ≡ first
        (violations.unique_violations children.now (places_in config.now entries.now) (leaf ∷ []))) }
{
    let mut seen = BTreeSet::new(alloc);
    for entry in entries {
        let values = values_below(alloc, children, config, entry, leaf)?;
        let (more, there) = with_values(seen, values.as_slice())?;
        seen = more;
        if there {
            return Ok(Some(violation(alloc, CauseKind::NotUnique, entry.steps.as_slice())?));
        }
    }
    Ok(None)
}

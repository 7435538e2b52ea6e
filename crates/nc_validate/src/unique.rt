//! `unique` (RFC 7950 7.8.3): the first entry whose values an entry before it has. It is looked for only where
//! entries are not apart by one of the leafs.
ghost use Rattle.std.specs.Prelude.{◌≡◌, List, map, IfOk};
ghost use Rattle.std.specs.BTreeSet.{contains};
ghost use Rattle.std.specs.List.{list_any};
ghost use Rattle.nc_schema.specs.Violations as violations;
ghost use Rattle.nc_defaults.specs.Within.{AreWithin, place_here, places_in};
ghost use Rattle.nc_validate.specs.inner.First.{first};
ghost use Rattle.nc_validate.specs.inner.Tuples.{AddsTuple, AddsTuples, order, texts};

use crate::alone::first_of_leaf;
use crate::apart::are_apart;
use crate::faults::violation;
use crate::tuples::tuples_of;
use nc_defaults::{Children, Spot};
use nc_names::{CauseKind, Many, Memory, Text};
use nc_schema::Violation;
use nc_tree::Listed;
use std::alloc::Global;
use std::collections::BTreeSet;

fn with<'a>(
    seen: BTreeSet<Many<&'a Text>>,
    tuple: Many<&'a Text>,
) -> Result<BTreeSet<Many<&'a Text>>, Memory>
    ensures { IfOk result (λ it. AddsTuple seen.entry it (texts tuple.entry)) }
{
    let mut seen = seen;
    seen.insert(tuple)?;
    Ok(seen)
}

fn with_all<'a>(
    seen: BTreeSet<Many<&'a Text>>,
    tuples: Many<Many<&'a Text>>,
) -> Result<BTreeSet<Many<&'a Text>>, Memory>
    ensures { IfOk result (λ it. AddsTuples seen.entry it (map texts tuples.entry)) }
{
    let mut seen = seen;
    for tuple in tuples.into_vec() {
        seen = with(seen, tuple)?;
    }
    Ok(seen)
}

fn has_any<'a>(seen: &BTreeSet<Many<&'a Text>>, tuples: &[Many<&'a Text>]) -> bool
    ensures { result ≡ list_any (λ tuple. contains order seen.now tuple) tuples.now }
{
    for tuple in tuples {
        if seen.contains(tuple) {
            return true;
        }
    }
    false
}

/// The first entry that agrees with one before it in the values of these leafs.
pub(crate) fn first_repeated<'a>(
    alloc: Global,
    children: &Children<'a>,
    config: &'a Listed,
    entries: &[Spot<'_>],
    leafs: &[u32],
) -> Result<Option<Violation>, Memory>
    requires { AreWithin config.now entries.now }
    ensures { IfOk result (λ it. it
        ≡ first (violations.unique_violations children.now (places_in config.now entries.now) leafs.now)) }
{
    let apart = are_apart(alloc, children, config, entries, leafs)?;
    if apart {
        return Ok(None);
    }
    if leafs.len() == 1 {
        return first_of_leaf(alloc, children, config, entries, leafs[0]);
    }
    let mut seen = BTreeSet::new(alloc);
    for entry in entries {
        let tuples = tuples_of(alloc, children, config, entry, leafs)?;
        if has_any(&seen, tuples.as_slice()) {
            return Ok(Some(violation(alloc, CauseKind::NotUnique, entry.steps.as_slice())?));
        }
        seen = with_all(seen, tuples)?;
    }
    Ok(None)
}

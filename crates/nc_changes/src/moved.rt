//! Whether an entry that the user orders has moved from one configuration to another (RFC 7950 7.7.7).
ghost use Rattle.std.specs.Prelude.{◌≡◌, ℕ, List, not, IfOk, None};
ghost use Rattle.std.specs.Option.{option_copied};
ghost use Rattle.nc_protocol.specs.Changes as changes;
ghost use Rattle.nc_changes.specs.inner.Entries as inner;
ghost use Rattle.nc_schema.specs.Standing as standing;

use nc_names::{Copies, Many, Memory, Path, Text, same_keys};
use nc_schema::Schema;
use nc_tree::{Config, last_step};
use std::alloc::Global;
use std::collections::BTreeSet;

// The entries, to be looked up.
fn known_entries<'a>(
    alloc: Global,
    order: &'a [Many<Text>],
) -> Result<BTreeSet<&'a Many<Text>>, Memory>
    ensures { IfOk result (λ it. inner.HasEntries it order.now) }
{
    let mut known = BTreeSet::new(alloc);
    for entry in order {
        known.insert(entry)?;
    }
    Ok(known)
}

/// Whether an entry is among those that are looked up.
pub(crate) fn is_known<'a>(known: &BTreeSet<&'a Many<Text>>, entry: &'a Many<Text>) -> bool
    ensures { (others : List (List (List ℕ))) → inner.HasEntries known.now others → result
        ≡ standing.has_entry entry.now others }
{
    known.contains(&entry)
}

fn entries_among<'a>(
    alloc: Global,
    others: &'a Many<Many<Text>>,
    order: &'a Many<Many<Text>>,
) -> Result<Many<Many<Text>>, Memory>
    ensures { IfOk result (λ it. it ≡ changes.entries_among others.now order.now) }
{
    let known = known_entries(alloc, others.as_slice())?;
    let mut among = Many::new(alloc);
    for entry in order.as_slice() {
        if is_known(&known, entry) {
            among.push(entry.copy()?)?;
        }
    }
    Ok(among)
}

// The last entry before one, or that one so far where none is.
fn entry_from<'a>(keys: &Many<Text>, order: &'a [Many<Text>]) -> Option<&'a Many<Text>>
    ensures { option_copied result ≡ inner.entry_from keys.now None order.now }
{
    let mut above: Option<&Many<Text>> = None;
    for entry in order {
        if same_keys(entry, keys) {
            return above;
        }
        above = Some(entry);
    }
    above
}

#[tactic(auto, using(crate::proofs::EntryLemmas::entry_is))]
fn entry_above<'a>(keys: &Many<Text>, order: &'a [Many<Text>]) -> Option<&'a Many<Text>>
    ensures { option_copied result ≡ changes.entry_above keys.now order.now }
{
    entry_from(keys, order)
}

/// Whether two entries are one, or there is none in either place.
pub(crate) fn is_same_entry(entry: Option<&Many<Text>>, other: Option<&Many<Text>>) -> bool
    ensures { result ≡ changes.is_same_entry (option_copied entry.entry) (option_copied other.entry) }
{
    match (entry, other) {
        (None, None) => true,
        (Some(keys), Some(others)) => same_keys(keys, others),
        _ => false,
    }
}

fn moves_between(
    alloc: Global,
    old: &Many<Many<Text>>,
    new: &Many<Many<Text>>,
    keys: &Many<Text>,
) -> Result<bool, Memory>
    ensures { IfOk result (λ it. it ≡ changes.moves_between old.now new.now keys.now) }
{
    let before = entries_among(alloc, new, old)?;
    let after = entries_among(alloc, old, new)?;
    let same = is_same_entry(
        entry_above(keys, before.as_slice()),
        entry_above(keys, after.as_slice()),
    );
    Ok(!same)
}

/// Whether the user orders the entries of a list or leaf-list.
pub(crate) fn is_by_user(schema: &Schema, number: u32) -> bool
    ensures { result ≡ standing.is_by_user schema.now number }
{
    match schema.node(number) {
        Some(node) => node.by_user,
        None => false,
    }
}

/// Whether the entry at a path has moved.
pub(crate) fn has_moved(
    schema: &Schema,
    config: &Config,
    after: &Config,
    path: &Path,
) -> Result<bool, Memory>
    ensures { IfOk result (λ it. it ≡ changes.has_moved schema.now config.now after.now path.now.steps) }
{
    match last_step(path.steps.as_slice()) {
        Some(step) => {
            if !is_by_user(schema, step.node) {
                return Ok(false);
            }
            let old = config.entries_beside(path)?;
            let new = after.entries_beside(path)?;
            moves_between(path.steps.alloc(), &old, &new, &step.keys)
        }
        None => Ok(false),
    }
}

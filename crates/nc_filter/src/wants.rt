//! What groups of elements want in their instances: rows with labels, and what containment nodes select
//! below.
ghost use Rattle.std.specs.Prelude.{◌≡◌, ◌++◌, ◌||◌, ℕ, IfOk, map};
ghost use Rattle.std.specs.List.{flat_map};
ghost use Rattle.nc_filter.specs.inner.Labels as inner;
ghost use Rattle.nc_filter.specs.inner.Lists.{IsSame};
ghost use Rattle.nc_filter.specs.inner.Sets.{bit_of, has};

use crate::groups::Group;
use crate::guards::unique;
use crate::labels::level_labels;
use crate::level::{containments, levels_of};
use crate::members::{Members, joined_members};
use crate::slots::with_keys;
use crate::texts::bytes_of;
use nc_message::Elem;
use nc_names::{Many, Memory};
use std::alloc::Global;
use std::collections::BTreeMap;

/// The numbers of instances, the labels of rows in them, and the containment nodes whose instances are
/// below them.
#[derive(Drop)]
pub(crate) struct Want<'a> {
    pub(crate) members: Members,
    pub(crate) labels: Many<Many<u8>>,
    pub(crate) elems: Many<&'a Elem>,
}

fn labels_of(alloc: Global, elems: &[&Elem]) -> Result<Many<Many<u8>>, Memory>
    ensures { IfOk result (λ it. IsSame (flat_map inner.level_labels (map (λ elem. elem.now) elems.now)) it) }
{
    let mut out = Many::new(alloc);
    for elem in elems {
        out.append(level_labels(alloc, elem)?)?;
    }
    Ok(unique(alloc, out)?)
}

// The containment nodes at the levels of some elements.
fn elems_below<'a>(alloc: Global, elems: &[&'a Elem]) -> Result<Many<&'a Elem>, Memory>
    ensures { IfOk result (λ it. map (λ elem. elem.now) it
        ≡ inner.below_of (map (λ elem. elem.now) elems.now)) }
{
    let below = levels_of(alloc, elems)?;
    let found = containments(alloc, below.as_slice())?;
    Ok(found)
}

fn want_of<'a>(alloc: Global, group: Group<'a>) -> Result<Want<'a>, Memory>
    ensures { IfOk result (λ it. inner.IsWant group.entry it) }
{
    let Group { members, elems } = group;
    let some = elems.as_slice();
    let all = labels_of(alloc, some)?;
    let below = elems_below(alloc, some)?;
    Ok(Want {
        members,
        labels: all,
        elems: below,
    })
}

/// What groups want.
pub(crate) fn wants<'a>(alloc: Global, groups: Many<Group<'a>>) -> Result<Many<Want<'a>>, Memory>
    ensures { IfOk result (λ it. inner.AreWants groups.entry it) }
{
    let mut rest = groups;
    let mut out = Many::new(alloc);
    'groups: while let Some(group) = rest.pop() {
        out.push(want_of(alloc, group)?)?;
    }
    Ok(out)
}

fn same_elems<'a>(alloc: Global, elems: &[&'a Elem]) -> Result<Many<&'a Elem>, Memory>
    ensures { IfOk result (λ it. map (λ elem. elem.now) it ≡ map (λ elem. elem.now) elems.now) }
{
    let mut out = Many::new(alloc);
    for elem in elems {
        out.push(*elem)?;
    }
    Ok(out)
}

/// One want of some elements, in the instance of number 0.
pub(crate) fn first_wants<'a>(alloc: Global, elems: &[&'a Elem]) -> Result<Many<Want<'a>>, Memory>
    ensures { IfOk result (λ it. inner.AreFirst (map (λ elem. elem.now) elems.now) it) }
{
    let mut few = Many::new(alloc);
    few.push(0)?;
    let members = Members::of_list(alloc, few);
    let labels = Many::new(alloc);
    let copy = same_elems(alloc, elems)?;
    let mut out = Many::new(alloc);
    out.push(Want {
        members,
        labels,
        elems: copy,
    })?;
    Ok(out)
}

fn with_copies(
    alloc: Global,
    out: Many<Many<u8>>,
    keys: &[Many<u8>],
) -> Result<Many<Many<u8>>, Memory>
    ensures { IfOk result (λ it. it ≡ out ++ keys.now) }
{
    let mut out = out;
    for key in keys {
        out.push(bytes_of(alloc, key.as_slice())?)?;
    }
    Ok(out)
}

/// All labels, each once.
pub(crate) fn all_labels(alloc: Global, wants: &[Want]) -> Result<Many<Many<u8>>, Memory>
    ensures { IfOk result (λ it. IsSame (flat_map (λ want. want.labels) wants.now) it) }
{
    let mut out = Many::new(alloc);
    for want in wants {
        out = with_copies(alloc, out, want.labels.as_slice())?;
    }
    Ok(unique(alloc, out)?)
}

/// The numbers of wants by their labels.
pub(crate) fn by_label(
    alloc: Global,
    wants: &[Want],
) -> Result<BTreeMap<Many<u8>, Many<usize>>, Memory>
    ensures { IfOk result (λ it. inner.AreSlots inner.want_has it wants.now wants.now) }
{
    let mut items = BTreeMap::new(alloc);
    let mut number = 0;
    for want in wants {
        items = with_keys(alloc, items, want.labels.as_slice(), number)?;
        number += 1;
    }
    Ok(items)
}

// Adds the numbers of the instances of a want.
fn with_want(words: Many<u64>, wants: &[Want], number: usize) -> Result<Many<u64>, Memory>
    ensures { IfOk result (λ it. (n : ℕ) → bit_of it n
        ≡ (bit_of words n || inner.at wants.now (λ want. has want.members n) number)) }
{
    match wants.get(number) {
        Some(want) => Ok(joined_members(words, &want.members)?),
        None => Ok(words),
    }
}

/// The numbers of the instances of some wants.
pub(crate) fn union_of(alloc: Global, wants: &[Want], some: &[usize]) -> Result<Many<u64>, Memory>
    ensures { IfOk result (λ it. inner.IsUnion it wants.now some.now) }
{
    let mut words = Many::new(alloc);
    for number in some {
        words = with_want(words, wants, *number)?;
    }
    Ok(words)
}

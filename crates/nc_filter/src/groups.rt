//! Elements by the instances that they name and in which their content matches hold (RFC 6241 6.2.5).
ghost use Rattle.std.specs.Prelude.{◌≡◌, ◌∷◌, ◌++◌, ◌==◌, ◌&&◌, ◌||◌, ◌<◌, ℕ, true, Bool, List, IfOk, IfSome, length, map};
ghost use Rattle.std.specs.List.{list_any};
ghost use Rattle.nc_filter.specs.declared.runs.Run.{Run};
ghost use Rattle.nc_filter.specs.inner.Runs as inner;
ghost use Rattle.nc_filter.specs.inner.Keys as words;
ghost use Rattle.nc_filter.specs.inner.Sets.{bit_of};
ghost use Rattle.nc_filter.specs.inner.Tables.{has_text};
ghost use Rattle.nc_filter.specs.inner.Lists.{AddsOne, IsLast, IsSame};

use crate::bits::is_set;
use crate::guards::Class;
use crate::members::{Members, is_alike, met_members};
use crate::runs::Run;
use crate::table::Table;
use nc_message::Elem;
use nc_names::{Many, Memory};
use std::alloc::Global;
use std::collections::BTreeSet;

/// The numbers of some instances, as a list where they are few.
#[derive(Drop)]
pub(crate) enum Reached {
    Few(Many<usize>),
    Bits(Many<u64>),
}

/// Elements that hold in the same instances, which are given by their numbers in a list.
#[derive(Drop)]
pub(crate) struct Group<'a> {
    pub(crate) members: Members,
    pub(crate) elems: Many<&'a Elem>,
}

// Whether each of some keys is in a set.
fn has_all(set: &BTreeSet<Many<u8>>, keys: &[Many<u8>]) -> bool
    ensures { result ≡ words.has_all (λ wanted. has_text set.now wanted) keys.now }
{
    for key in keys {
        if !set.contains(key) {
            return false;
        }
    }
    true
}

// Whether the instance of a number has each of some keys.
fn holds_at(runs: &[Run], number: usize, keys: &[Many<u8>]) -> bool
    ensures { result ≡ inner.at_number runs.now (inner.holds_in keys.now) number }
{
    match runs.get(number) {
        Some(run) => has_all(&run.keys, keys),
        None => false,
    }
}

// Whether a number is in a set, and its instance has each of some keys.
fn is_held(runs: &[Run], from: &[u64], number: usize, keys: &[Many<u8>]) -> bool
    ensures { result ≡ inner.is_held keys.now runs.now from.now number }
{
    if is_set(from, number) {
        return holds_at(runs, number, keys);
    }
    false
}

fn is_last(numbers: &Many<usize>, number: usize) -> bool
    ensures { result ≡ true → IsLast numbers.now number }
{
    match numbers.last() {
        Some(last) => *last == number,
        None => false,
    }
}

// Some numbers and one more, unless it is the last of them.
fn with_once(numbers: Many<usize>, number: usize) -> Result<Many<usize>, Memory>
    ensures { IfOk result (λ it. AddsOne numbers it number) }
{
    if is_last(&numbers, number) {
        return Ok(numbers);
    }
    let mut more = numbers;
    more.push(number)?;
    Ok(more)
}

// Some numbers and one more, or not.
fn with_number_if(numbers: Many<usize>, passes: bool, number: usize) -> Result<Many<usize>, Memory>
    ensures { IfOk result (λ it. inner.AddsIf passes number numbers it) }
{
    if passes {
        let more = with_once(numbers, number)?;
        return Ok(more);
    }
    Ok(numbers)
}

// Those of some numbers that are in a set and whose instances have each of some keys.
fn held(
    alloc: Global,
    runs: &[Run],
    from: &[u64],
    some: &[usize],
    keys: &[Many<u8>],
) -> Result<Many<usize>, Memory>
    ensures { IfOk result (λ it. inner.AreOf (inner.is_held keys.now runs.now from.now) some.now it) }
{
    let mut out = Many::new(alloc);
    for number in some {
        out = with_number_if(out, is_held(runs, from, *number, keys), *number)?;
    }
    Ok(out)
}

// Those of some numbers whose instances have each of some keys.
fn holding(
    alloc: Global,
    runs: &[Run],
    some: &[usize],
    keys: &[Many<u8>],
) -> Result<Many<usize>, Memory>
    ensures { IfOk result (λ it. (here : Run → Bool) → inner.AreNumbered runs.now here some.now →
        inner.AreListed keys.now runs.now here it) }
{
    let mut out = Many::new(alloc);
    for number in some {
        out = with_number_if(out, holds_at(runs, *number, keys), *number)?;
    }
    Ok(out)
}

// How many instances have a key, where they are few.
fn few_count(table: &Table, key: &Many<u8>) -> usize {
    match table.few(key) {
        Some(few) => few.len(),
        None => usize::MAX,
    }
}

// The place of the key that the fewest instances have, where they are few; 0 where they are not.
fn rarest(table: &Table, keys: &[Many<u8>]) -> usize {
    let mut best = 0;
    let mut fewest = usize::MAX;
    let mut place = 0;
    for key in keys {
        let count = few_count(table, key);
        if count < fewest {
            fewest = count;
            best = place;
        }
        place += 1;
    }
    best
}

// Of a set of numbers, those that have a key.
fn met_key(
    alloc: Global,
    table: &Table,
    key: &Many<u8>,
    numbers: Many<u64>,
) -> Result<Many<u64>, Memory>
    ensures { IfOk result (λ it. (n : ℕ) → bit_of it n
        ≡ (bit_of numbers n && inner.has_at table.now.items key.now n)) }
{
    match table.slot(key) {
        Some(members) => Ok(met_members(alloc, numbers, members)?),
        None => Ok(Many::new(alloc)),
    }
}

// Of a set of numbers, those that have each of some keys.
fn met_keys(
    alloc: Global,
    table: &Table,
    from: &[u64],
    keys: &[Many<u8>],
) -> Result<Many<u64>, Memory>
    ensures { IfOk result (λ it. (n : ℕ) → bit_of it n
        ≡ (bit_of from.now n && inner.has_keys table.now.items keys.now n)) }
{
    let mut out = Many::from_vec(Vec::from_slice(alloc, from)?);
    for key in keys {
        out = met_key(alloc, table, key, out)?;
    }
    Ok(out)
}

// The numbers of a set whose instances have each of some keys, one of which has few numbers.
fn held_few(
    alloc: Global,
    table: &Table,
    runs: &[Run],
    from: &[u64],
    keys: &[Many<u8>],
    place: usize,
) -> Result<Option<Many<usize>>, Memory>
    requires { place < length keys.now }
    ensures { IfOk result (λ o. IfSome o (λ it. (here : Run → Bool) → inner.IsFrom runs.now here from.now →
        inner.IsKeyed table.now.items runs.now → inner.AreListed keys.now runs.now here it)) }
{
    let key = &keys[place];
    match table.few(key) {
        Some(few) => Ok(Some(held(alloc, runs, from, few, keys)?)),
        None => Ok(None),
    }
}

// The numbers of a set whose instances have each of some keys, by the table.
fn held_many(
    alloc: Global,
    table: &Table,
    from: &[u64],
    keys: &[Many<u8>],
) -> Result<Members, Memory>
    ensures { IfOk result (λ it. (whole : List Run) (here : Run → Bool) → inner.IsFrom whole here from.now →
        inner.IsKeyed table.now.items whole → inner.AreHeld keys.now whole here it) }
{
    let numbers = met_keys(alloc, table, from, keys)?;
    Ok(Members::of_bits(alloc, numbers))
}

// The numbers of a set whose instances have each of some keys, one of which is the rarest.
fn members_by(
    alloc: Global,
    table: &Table,
    runs: &[Run],
    from: &[u64],
    keys: &[Many<u8>],
    place: usize,
) -> Result<Members, Memory>
    requires { place < length keys.now }
    ensures { IfOk result (λ it. (here : Run → Bool) → inner.IsFrom runs.now here from.now →
        inner.IsKeyed table.now.items runs.now → inner.AreHeld keys.now runs.now here it) }
{
    let found = held_few(alloc, table, runs, from, keys, place)?;
    match found {
        Some(few) => Ok(Members::of_list(alloc, few)),
        None => Ok(held_many(alloc, table, from, keys)?),
    }
}

// The numbers of a set of bits whose instances have each of some keys.
fn members_in(
    alloc: Global,
    table: &Table,
    runs: &[Run],
    from: &[u64],
    keys: &[Many<u8>],
) -> Result<Members, Memory>
    ensures { IfOk result (λ it. (here : Run → Bool) → inner.IsFrom runs.now here from.now →
        inner.IsKeyed table.now.items runs.now → inner.AreHeld keys.now runs.now here it) }
{
    let place = rarest(table, keys);
    if place < keys.len() {
        let found = members_by(alloc, table, runs, from, keys, place)?;
        return Ok(found);
    }
    let found = held_many(alloc, table, from, keys)?;
    Ok(found)
}

// The numbers of a set whose instances have each of some keys.
fn members_of(
    alloc: Global,
    table: &Table,
    runs: &[Run],
    from: &Reached,
    keys: &[Many<u8>],
) -> Result<Members, Memory>
    ensures { IfOk result (λ it. (here : Run → Bool) → inner.AreReached runs.now here from.now →
        inner.IsKeyed table.now.items runs.now → inner.AreHeld keys.now runs.now here it) }
{
    match from {
        Reached::Few(few) => {
            let found = holding(alloc, runs, few.as_slice(), keys)?;
            Ok(Members::of_list(alloc, found))
        }
        Reached::Bits(words) => Ok(members_in(alloc, table, runs, words.as_slice(), keys)?),
    }
}

fn group_of<'a>(
    alloc: Global,
    table: &Table,
    runs: &[Run<'a>],
    from: &Reached,
    class: Class<'a>,
) -> Result<Group<'a>, Memory>
    ensures { IfOk result (λ it. (here : Run → Bool) → inner.AreReached runs.now here from.now →
        inner.IsKeyed table.now.items runs.now → inner.IsGroup runs.now here it class.entry) }
{
    let Class { keys, elems } = class;
    let members = members_of(alloc, table, runs, from, keys.as_slice())?;
    Ok(Group { members, elems })
}

// Groups with one more, unless its content matches hold nowhere.
#[tactic(auto, using(crate::proofs::GroupLemmas::group_apart))]
fn with_some<'a>(groups: Many<Group<'a>>, group: Group<'a>) -> Result<Many<Group<'a>>, Memory>
    ensures { IfOk result (λ it. (whole : List Run) → inner.AddsGroup whole groups.entry it group.entry) }
{
    if group.members.is_empty() {
        return Ok(groups);
    }
    let mut groups = groups;
    groups.push(group)?;
    Ok(groups)
}

fn sorted_lists<'a>(groups: Many<Group<'a>>) -> Result<Many<Group<'a>>, Memory>
    ensures { IfOk result (λ it. IsSame groups.entry it) }
{
    let mut items = groups.into_vec();
    items.sort_by(|one, other| one.members.few.cmp(&other.members.few))?;
    Ok(Many::from_vec(items))
}

fn sorted_groups<'a>(groups: Many<Group<'a>>) -> Result<Many<Group<'a>>, Memory>
    ensures { IfOk result (λ it. IsSame groups.entry it) }
{
    let mut items = groups.into_vec();
    items.sort_by(|one, other| one.members.words.cmp(&other.members.words))?;
    Ok(Many::from_vec(items))
}

// A group with the elements of another.
fn joined<'a>(group: Group<'a>, other: Group<'a>) -> Result<Group<'a>, Memory>
    ensures { IfOk result (λ it. (it.members ≡ group.entry.members)
        × (it.elems ≡ group.entry.elems ++ other.entry.elems)) }
{
    let Group { members, elems } = group;
    let mut elems = elems;
    elems.append(other.elems)?;
    Ok(Group { members, elems })
}

fn is_same_group(one: &Group, other: &Group) -> bool
    ensures { result ≡ true → one.now.members ≡ other.now.members }
{
    is_alike(&one.members, &other.members)
}

// Groups with one more, whose elements go to the last where that has the same instances.
#[tactic(auto, using(crate::proofs::GroupLemmas::group_joined, crate::proofs::GroupLemmas::group_apart))]
fn with_group<'a>(groups: Many<Group<'a>>, group: Group<'a>) -> Result<Many<Group<'a>>, Memory>
    ensures { IfOk result (λ it. (whole : List Run) → inner.AddsGroup whole groups.entry it group.entry) }
{
    let mut groups = groups;
    let Some(last) = groups.pop() else {
        groups.push(group)?;
        return Ok(groups);
    };
    if is_same_group(&last, &group) {
        groups.push(joined(last, group)?)?;
        return Ok(groups);
    }
    groups.push(last)?;
    groups.push(group)?;
    Ok(groups)
}

/// Groups with one for each class whose content matches hold in one of a set of instances.
pub(crate) fn group_each<'a>(
    alloc: Global,
    table: &Table,
    runs: &[Run<'a>],
    from: &Reached,
    classes: Many<Class<'a>>,
    out: Many<Group<'a>>,
) -> Result<Many<Group<'a>>, Memory>
    ensures { IfOk result (λ it. (here : Run → Bool) → inner.AreReached runs.now here from.now →
        inner.IsKeyed table.now.items runs.now → inner.AddsGroups runs.now here classes.entry out.entry it) }
{
    let mut rest = classes;
    let mut out = out;
    'classes: while let Some(class) = rest.pop() {
        let group = group_of(alloc, table, runs, from, class)?;
        out = with_some(out, group)?;
    }
    Ok(out)
}

/// Groups, each set of instances once.
pub(crate) fn joined_groups<'a>(
    alloc: Global,
    groups: Many<Group<'a>>,
) -> Result<Many<Group<'a>>, Memory>
    ensures { IfOk result (λ it. inner.AreSameGroups groups.entry it) }
{
    let by_list = sorted_lists(groups)?;
    let mut rest = sorted_groups(by_list)?;
    let mut out = Many::new(alloc);
    'groups: while let Some(group) = rest.pop() {
        out = with_group(out, group)?;
    }
    Ok(out)
}

//! The instances below those of groups, and the elements of wants by the instances that they reach.
ghost use Rattle.std.specs.Prelude.{◌≡◌, ◌==◌, ◌&&◌, ◌||◌, ℕ, Bool, List, IfOk};
ghost use Rattle.std.specs.List.{list_any};
ghost use Rattle.nc_filter.specs.declared.runs.Run.{Run};
ghost use Rattle.nc_filter.specs.inner.Below.{IsBelow, in_number};
ghost use Rattle.nc_filter.specs.inner.Runs as inner;
ghost use Rattle.nc_filter.specs.inner.Sets.{bit_of, has};

use crate::below::Below;
use crate::bits::{is_set, with_bit};
use crate::groups::{Group, Reached, group_each, joined_groups};
use crate::guards::classes;
use crate::members::{Members, bits_of, with_number};
use crate::runs::Run;
use crate::table::Table;
use crate::wants::Want;
use nc_names::{Many, Memory};
use std::alloc::Global;

// How many numbers a list has at most.
const FEW: usize = 16;

// Adds a number, where that of its instance's parent is in a set.
fn with_reached(
    words: Many<u64>,
    parents: &[u64],
    run: &Run,
    number: usize,
) -> Result<Many<u64>, Memory>
    ensures { IfOk result (λ it. (n : ℕ) → bit_of it n
        ≡ (bit_of words n || (bit_of parents.now run.now.parent && (number == n)))) }
{
    if is_set(parents, run.parent) {
        let more = with_bit(words, number)?;
        return Ok(more);
    }
    Ok(words)
}

// The numbers of the instances whose parents are in a set, as bits.
fn reached_bits(alloc: Global, runs: &[Run], members: &Members) -> Result<Many<u64>, Memory>
    ensures { IfOk result (λ it. inner.IsFrom runs.now (λ run. has members.now run.parent) it) }
{
    let parents = bits_of(alloc, members)?;
    let above = parents.as_slice();
    let mut out = Many::new(alloc);
    let mut number = 0;
    for run in runs {
        out = with_reached(out, above, run, number)?;
        number += 1;
    }
    Ok(out)
}

// Adds the numbers of the instances in that of a number.
fn with_inside(
    alloc: Global,
    below: &Below,
    parent: usize,
    members: Members,
) -> Result<Members, Memory>
    ensures { IfOk result (λ it. (n : ℕ) →
        has it n ≡ (has members n || list_any (λ one. one == n) (in_number below.now.items parent))) }
{
    let inside = below.inside(parent);
    let mut out = members;
    for number in inside {
        out = with_number(alloc, out, *number)?;
    }
    Ok(out)
}

// The numbers of the instances in those of a list.
fn inside_all(alloc: Global, below: &Below, parents: &[usize]) -> Result<Members, Memory>
    ensures { IfOk result (λ it. (whole : List Run) → IsBelow whole below.now → (n : ℕ) →
        has it n ≡ inner.at_number whole (λ run. list_any (λ one. one == run.parent) parents.now) n) }
{
    let mut out = Members::new(alloc);
    for parent in parents {
        out = with_inside(alloc, below, *parent, out)?;
    }
    Ok(out)
}

// A set as a list where its numbers are few, and else as bits.
fn short(alloc: Global, members: Members) -> Result<Reached, Memory>
    ensures { IfOk result (λ it. (whole : List Run) (here : Run → Bool) →
        ((n : ℕ) → has members n ≡ inner.at_number whole here n) → inner.AreReached whole here it) }
{
    if members.words.is_empty() && members.few.len() <= FEW {
        return Ok(Reached::Few(members.few));
    }
    Ok(Reached::Bits(bits_of(alloc, &members)?))
}

// The numbers of the instances whose parents are in a set.
fn reached(alloc: Global, runs: &[Run], below: &Below, members: &Members) -> Result<Reached, Memory>
    ensures { IfOk result (λ it. IsBelow runs.now below.now →
        inner.AreReached runs.now (λ run. has members.now run.parent) it) }
{
    if members.words.is_empty() {
        let found = inside_all(alloc, below, members.few.as_slice())?;
        return Ok(short(alloc, found)?);
    }
    Ok(Reached::Bits(reached_bits(alloc, runs, members)?))
}

// Instances, by their keys and by those in which they stand.
#[derive(Drop)]
struct Instances<'a, 'r> {
    runs: &'r [Run<'a>],
    table: &'r Table,
    below: Below,
}

// Groups with those of the elements of a want.
fn with_want<'a>(
    alloc: Global,
    instances: &Instances<'a, '_>,
    upper: Option<usize>,
    want: &Want<'a>,
    out: Many<Group<'a>>,
) -> Result<Many<Group<'a>>, Memory>
    ensures { IfOk result (λ it. inner.IsKeyed instances.now.table.now.items instances.now.runs.now →
        IsBelow instances.now.runs.now instances.now.below →
        inner.AddsWant instances.now.runs.now upper want.now out.entry it) }
{
    let elems = want.elems.as_slice();
    if elems.is_empty() {
        return Ok(out);
    }
    let runs = instances.runs;
    let classes = classes(alloc, upper, elems)?;
    let from = reached(alloc, runs, &instances.below, &want.members)?;
    let found = group_each(alloc, instances.table, runs, &from, classes, out)?;
    Ok(found)
}

/// The elements of wants by the instances in which they hold, each set of instances once.
pub(crate) fn groups<'a>(
    alloc: Global,
    table: &Table,
    runs: &[Run<'a>],
    upper: Option<usize>,
    wants: &[Want<'a>],
) -> Result<Many<Group<'a>>, Memory>
    ensures { IfOk result (λ it. inner.IsKeyed table.now.items runs.now →
        inner.AreGroups runs.now upper wants.now it) }
{
    let below = Below::of(alloc, runs)?;
    let instances = Instances { runs, table, below };
    let mut out = Many::new(alloc);
    for want in wants {
        out = with_want(alloc, &instances, upper, want, out)?;
    }
    let found = joined_groups(alloc, out)?;
    Ok(found)
}

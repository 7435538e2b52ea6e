//! How many types are asked of a value in all (RFC 7950 9.9, 9.12).
ghost use Rattle.std.specs.Prelude.{◌≡◌, ◌+◌, map, min, IfOk};
ghost use Rattle.std.specs.List.{sum_by};
ghost use Rattle.nc_schema.specs.Values.{type_of as kind_at};
ghost use Rattle.nc_yang.specs.Depths as words;
ghost use Rattle.nc_yang.specs.inner.Marked as marked;

use nc_names::{Many, Memory};
use nc_schema::{Kind, Schema, ValueType};
use std::alloc::Global;

/// How many types are asked of a value at most.
pub(crate) const MOST_ASKED: u32 = 4096;

// The greatest count, of all that are asked more often than that.
const PAST_MOST: u32 = MOST_ASKED + 1;

/// The number of the type of a leaf or leaf-list.
pub(crate) fn type_at(schema: &Schema, number: u32) -> Option<u32>
    ensures { result ≡ kind_at schema.now number }
{
    let node = schema.node(number)?;
    match node.kind {
        Kind::Leaf | Kind::LeafList => Some(node.kind_of_value),
        Kind::Container { .. } | Kind::List => None,
    }
}

/// The count of the type of a number.
pub(crate) fn count_at(counts: &[u32], number: u32) -> u32
    ensures { result ≡ marked.count_at counts.now number }
{
    match counts.get(number as usize) {
        Some(count) => *count,
        None => 0,
    }
}

// The sum of two counts.
fn sum_of(one: u32, other: u32) -> u32
    ensures { result ≡ min (one + other) 4097 }
{
    one.saturating_add(other).min(PAST_MOST)
}

// The sum of the counts of several types.
fn sum_at(counts: &[u32], members: &[u32]) -> u32
    ensures { result ≡ min (sum_by (marked.count_at counts.now) members.now) 4097 }
{
    let mut sum = 0;
    for member in members {
        sum = sum_of(sum, count_at(counts, *member));
    }
    sum
}

// How many types are asked where a type is, by the counts of those that it asks.
fn asked_with(schema: &Schema, counts: &[u32], found: &ValueType) -> u32
    ensures { result ≡ marked.asked_with schema.now (marked.count_at counts.now) found.now }
{
    match found {
        ValueType::Union { members } => sum_of(1, sum_at(counts, members.as_slice())),
        ValueType::Leafref { target, .. } => match type_at(schema, *target) {
            Some(number) => sum_of(1, count_at(counts, number)),
            None => 1,
        },
        _ => 1,
    }
}

// A count for each type, by the counts of those that it asks.
fn counted(alloc: Global, schema: &Schema, counts: &[u32]) -> Result<Many<u32>, Memory>
    ensures { IfOk result (λ it. it ≡ map (marked.asked_with schema.now
        (marked.count_at counts.now)) schema.now.types) }
{
    let types = schema.types();
    let mut out = Many::new(alloc);
    for found in types {
        out.push(asked_with(schema, counts, found))?;
    }
    Ok(out)
}

/// How many types are asked where each type is, so many levels deep; 4,097 where they are more. It ends where
/// a level adds nothing.
pub(crate) fn counts_of(alloc: Global, schema: &Schema, levels: usize) -> Result<Many<u32>, Memory>
    ensures { IfOk result (marked.AreCounts schema.now levels) }
{
    let mut counts = Many::new(alloc);
    for _ in 0..levels {
        let more = counted(alloc, schema, counts.as_slice())?;
        if more == counts {
            return Ok(counts);
        }
        counts = more;
    }
    Ok(counts)
}

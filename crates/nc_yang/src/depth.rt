//! Through how many types values are read (RFC 7950 9.9, 9.12).
ghost use Rattle.std.specs.Prelude.{◌≡◌, ◌||◌, true, map, nat_lt, replicate, option_map, slice_get, IfOk, MatchOption, MatchResult};
ghost use Rattle.std.specs.List.{list_any};
ghost use Rattle.nc_schema.specs.Values.{type_of as kind_at};
ghost use Rattle.nc_yang_scopes.specs.Numbers.{IsNumber};
ghost use Rattle.nc_yang_leafs.specs.Bases.{type_of};
ghost use Rattle.nc_yang_statements.specs.Stops.{OnBroken};
ghost use Rattle.nc_yang.specs.Depths as words;
ghost use Rattle.nc_yang.specs.inner.Marked as marked;

use crate::counts::{MOST_ASKED, count_at, counts_of, type_at};
use nc_names::{Many, Memory};
use nc_schema::{Schema, ValueType};
use nc_yang_nodes::Plan;
use nc_yang_scopes::{Scopes, TextFault, part_of};
use nc_yang_statements::{Fault, Keyword, ModuleWhy, Stop};
use std::alloc::Global;

/// How many types a value is read through, one after another.
const MOST_TYPES: usize = 64;

// The mark of a type.
fn is_marked(marks: &[bool], number: u32) -> bool
    ensures { result ≡ marked.is_marked marks.now number }
{
    match marks.get(number as usize) {
        Some(mark) => *mark,
        None => false,
    }
}

// Whether one of these types is marked.
fn has_marked(marks: &[bool], members: &[u32]) -> bool
    ensures { result ≡ list_any (marked.is_marked marks.now) members.now }
{
    for member in members {
        if is_marked(marks, *member) {
            return true;
        }
    }
    false
}

// Whether a type asks one that is marked.
fn asks(schema: &Schema, marks: &[bool], found: &ValueType) -> bool
    ensures { result ≡ list_any (marked.is_marked marks.now) (words.asked_of schema.now found.now) }
{
    match found {
        ValueType::Union { members } => has_marked(marks, members.as_slice()),
        ValueType::Leafref { target, .. } => match type_at(schema, *target) {
            Some(number) => is_marked(marks, number),
            None => false,
        },
        _ => false,
    }
}

// A mark for each type that asks one that is marked.
fn asking(alloc: Global, schema: &Schema, marks: &[bool]) -> Result<Many<bool>, Memory>
    ensures { IfOk result (λ it. it ≡ map (λ found. list_any (marked.is_marked marks.now)
        (words.asked_of schema.now found)) schema.now.types) }
{
    let types = schema.types();
    let mut out = Many::new(alloc);
    for found in types {
        out.push(asks(schema, marks, found))?;
    }
    Ok(out)
}

// A mark for each type.
fn all_marked(alloc: Global, count: usize) -> Result<Many<bool>, Memory>
    ensures { IfOk result (λ it. it ≡ replicate count true) }
{
    let mut marks = Many::new(alloc);
    for _ in 0..count {
        marks.push(true)?;
    }
    Ok(marks)
}

// A mark for each type that asks so many more, one after another.
fn deep(alloc: Global, schema: &Schema, more: usize) -> Result<Many<bool>, Memory>
    ensures { IfOk result (marked.AreDeep schema.now more) }
{
    let mut marks = all_marked(alloc, schema.types().len())?;
    for _ in 0..more {
        marks = asking(alloc, schema, marks.as_slice())?;
    }
    Ok(marks)
}

// The number of the `type` statement of a data node.
fn type_statement(scopes: &Scopes, plan: &Plan, number: u32) -> Option<usize>
    ensures { IsNumber scopes.now.located result (type_of scopes.now plan.now number) }
{
    let planned = plan.nodes.get(number as usize)?;
    scopes.statement(planned.statement)?;
    part_of(scopes, planned.statement, Keyword::TypeName)
}

// The fault at a `type` statement.
fn too_many_at(scopes: &Scopes, number: usize) -> Option<TextFault>
    ensures { result ≡ option_map words.too_many_at (slice_get scopes.now.located number) }
{
    let Some(text) = scopes.text(number) else {
        return None;
    };
    let Some(statement) = scopes.statement(number) else {
        return None;
    };
    let fault = Fault {
        line: statement.line,
        why: ModuleWhy::TooMany,
    };
    Some(TextFault { text, fault })
}

// Whether the type of a number asks too many.
fn asks_too_many(marks: &[bool], counts: &[u32], number: u32) -> bool
    ensures { result ≡ marked.is_marked marks.now number || nat_lt 4096 (marked.count_at counts.now number) }
{
    is_marked(marks, number) || count_at(counts, number) > MOST_ASKED
}

// Whether a value of the type of a data node is read through too many types.
#[tactic(auto, using(crate::proofs::CountLemmas::too_many_by))]
fn reads_too_many(schema: &Schema, marks: &[bool], counts: &[u32], number: u32) -> bool
    requires deep { marked.AreDeep schema.now 64 marks.now }
    requires counts { marked.AreCounts schema.now 64 counts.now }
    ensures { result ≡ words.reads_too_many schema.now number }
{
    match type_at(schema, number) {
        Some(one) => asks_too_many(marks, counts, one),
        None => false,
    }
}

// The fault of a data node whose value is.
fn depth_fault(
    scopes: &Scopes,
    plan: &Plan,
    schema: &Schema,
    marks: &[bool],
    counts: &[u32],
    number: u32,
) -> Option<TextFault>
    requires deep { marked.AreDeep schema.now 64 marks.now }
    requires counts { marked.AreCounts schema.now 64 counts.now }
    ensures { result ≡ words.depth_fault scopes.now plan.now schema.now number }
{
    if !reads_too_many(schema, marks, counts, number) {
        return None;
    }
    match type_statement(scopes, plan, number) {
        Some(found) => too_many_at(scopes, found),
        None => None,
    }
}

// The first of those faults.
fn first_fault(
    scopes: &Scopes,
    plan: &Plan,
    schema: &Schema,
    marks: &[bool],
    counts: &[u32],
) -> Option<TextFault>
    requires deep { marked.AreDeep schema.now 64 marks.now }
    requires counts { marked.AreCounts schema.now 64 counts.now }
    ensures { MatchOption result (words.KeepsDepth scopes.now plan.now schema.now)
        (words.BreaksDepth scopes.now plan.now schema.now) }
{
    for number in 0..schema.nodes() {
        if let Some(found) = depth_fault(scopes, plan, schema, marks, counts, number) {
            return Some(found);
        }
    }
    None
}

/// Nothing where no value is read through more than 64 types, one after another, or through more than 4,096
/// in all; else TooMany at the `type` statement of the first data node whose value is.
pub(crate) fn keep_depth(
    alloc: Global,
    scopes: &Scopes,
    plan: &Plan,
    schema: &Schema,
) -> Result<(), Stop<TextFault>>
    ensures { MatchResult result (λ _. words.KeepsDepth scopes.now plan.now schema.now)
        (OnBroken (words.BreaksDepth scopes.now plan.now schema.now)) }
{
    let marks = deep(alloc, schema, MOST_TYPES)?;
    let counts = counts_of(alloc, schema, MOST_TYPES)?;
    match first_fault(scopes, plan, schema, marks.as_slice(), counts.as_slice()) {
        Some(found) => Err(Stop::Broken(found)),
        None => Ok(()),
    }
}

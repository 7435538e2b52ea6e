//! The elements of a level by their names (RFC 6241 6.2.1).
ghost use Rattle.std.specs.Prelude.{◌≡◌, ◌∷◌, ◌++◌, [], if◌then◌else◌, IfOk, map};
ghost use Rattle.nc_filter.specs.inner.Keys as keys;
ghost use Rattle.nc_filter.specs.inner.Names as names;
ghost use Rattle.nc_filter.specs.inner.Runs as runs;

use crate::element::is_named;
use crate::keys::{key, name_key};
use crate::slots::with_key;
use nc_message::Elem;
use nc_names::{Many, Memory};
use nc_schema::{Node, Schema};
use std::alloc::Global;
use std::collections::BTreeMap;

/// The elements of a level, and their numbers by their names.
#[derive(Drop)]
pub(crate) struct Level<'a> {
    pub(crate) elems: Many<&'a Elem>,
    pub(crate) items: BTreeMap<Many<u8>, Many<usize>>,
}

fn with_elem(
    alloc: Global,
    items: BTreeMap<Many<u8>, Many<usize>>,
    elem: &Elem,
    number: usize,
) -> Result<BTreeMap<Many<u8>, Many<usize>>, Memory>
    ensures { IfOk result (λ it. runs.adds_key items it (keys.name_key elem.now) number) }
{
    let name = name_key(alloc, elem)?;
    let more = with_key(alloc, items, name, number)?;
    Ok(more)
}

fn names_of(alloc: Global, elems: &[&Elem]) -> Result<BTreeMap<Many<u8>, Many<usize>>, Memory>
    ensures { IfOk result (λ it. names.AreNames it elems.now elems.now) }
{
    let mut items = BTreeMap::new(alloc);
    let mut number = 0;
    for elem in elems {
        items = with_elem(alloc, items, elem, number)?;
        number += 1;
    }
    Ok(items)
}

// Adds the element of a number, if it names a data node.
fn with_number<'a>(
    schema: &Schema,
    node: u32,
    elems: &[&'a Elem],
    number: usize,
    out: Many<&'a Elem>,
) -> Result<Many<&'a Elem>, Memory>
    ensures { IfOk result (λ it. names.AddsNamed schema.now node elems.now number out.entry it) }
{
    if number >= elems.len() {
        return Ok(out);
    }
    let elem = elems[number];
    if !is_named(schema, node, elem) {
        return Ok(out);
    }
    let mut more = out;
    more.push(elem)?;
    Ok(more)
}

fn with_numbers<'a>(
    schema: &Schema,
    node: u32,
    elems: &[&'a Elem],
    numbers: &[usize],
    out: Many<&'a Elem>,
) -> Result<Many<&'a Elem>, Memory>
    ensures { IfOk result (λ it. names.AddsNamedOf schema.now node elems.now numbers.now out.entry it) }
{
    let mut out = out;
    for number in numbers {
        out = with_number(schema, node, elems, *number, out)?;
    }
    Ok(out)
}

// Adds those elements of a name that name a data node.
fn with_slot<'a>(
    schema: &Schema,
    node: u32,
    level: &Level<'a>,
    wanted: &Many<u8>,
    out: Many<&'a Elem>,
) -> Result<Many<&'a Elem>, Memory>
    ensures { IfOk result (λ it. names.AddsNamedOf schema.now node level.now.elems
        (runs.in_slot level.now.items wanted.now) out.entry it) }
{
    match level.items.get(wanted) {
        Some(numbers) => {
            let elems = level.elems.as_slice();
            Ok(with_numbers(schema, node, elems, numbers.as_slice(), out)?)
        }
        None => Ok(out),
    }
}

// Those elements of a level that name a data node, with its namespace or without one.
fn named_by<'a>(
    alloc: Global,
    schema: &Schema,
    number: u32,
    node: &Node,
    level: &Level<'a>,
) -> Result<Many<&'a Elem>, Memory>
    ensures { IfOk result (λ it. names.AddsNamedOf schema.now number level.now.elems
        (names.in_slots level.now.items node.now.name.space node.now.name.name) [] it) }
{
    let space = node.name.space.as_str().as_bytes();
    let name = node.name.name.as_str().as_bytes();
    let none = Many::new(alloc);
    let whole = key(alloc, space, name, &[])?;
    let out = with_slot(schema, number, level, &whole, none)?;
    if space.is_empty() {
        return Ok(out);
    }
    let local = key(alloc, &[], name, &[])?;
    let more = with_slot(schema, number, level, &local, out)?;
    Ok(more)
}

impl<'a> Level<'a> {
    /// Some elements, by their names.
    pub(crate) fn new(alloc: Global, elems: Many<&'a Elem>) -> Result<Level<'a>, Memory>
        ensures elems { IfOk result (λ it. it.elems ≡ elems.entry) }
        ensures names { IfOk result (λ it. names.AreNames it.items it.elems it.elems) }
    {
        let items = names_of(alloc, elems.as_slice())?;
        Ok(Level { elems, items })
    }

    /// Those of the elements that name a data node.
    pub(crate) fn named(
        &self,
        alloc: Global,
        schema: &Schema,
        number: u32,
    ) -> Result<Many<&'a Elem>, Memory>
        ensures { IfOk result (λ it. names.AreNames self.now.items self.now.elems self.now.elems →
            names.AreNamed schema.now number (map (λ elem. elem.now) self.now.elems)
            (map (λ elem. elem.now) it)) }
    {
        match schema.node(number) {
            Some(node) => Ok(named_by(alloc, schema, number, node, self)?),
            None => Ok(Many::new(alloc)),
        }
    }
}

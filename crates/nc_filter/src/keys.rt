//! Names with texts as keys: what a row is found by, and what a content match asks for (RFC 6241 6.2.5).
ghost use Rattle.std.specs.Prelude.{◌≡◌, ◌∷◌, ◌++◌, [], List, IfOk, OnOk, map};
ghost use Rattle.std.specs.List.{flat_map};
ghost use Rattle.std.specs.Option.{option_copied, option_map_or};
ghost use Rattle.nc_names.specs.declared.path.Row.{Row};
ghost use Rattle.nc_filter.specs.inner.Keys as keys;
ghost use Rattle.nc_filter.specs.inner.Tables.{IsIndex};

use crate::element::{child, has_no_attribute, is_content_match, last_step};
use crate::index::Index;
use crate::texts::elem_text;
use nc_message::Elem;
use nc_names::{Bytes, Many, Memory, Row, Step, Text, trimmed_bytes};
use nc_schema::{Node, Schema};
use std::alloc::Global;

// A name with its end: a 1 before each byte, and a 0 after all.
fn push_marked(bytes: &mut Bytes, name: &[u8]) -> Result<(), Memory>
    ensures { OnOk result (bytes.new ≡ bytes.old ++ keys.marked name.now) }
{
    for b in name {
        bytes.push(1)?;
        bytes.push(*b)?;
    }
    bytes.push(0)?;
    Ok(())
}

/// A namespace, a local name and a text in one.
pub(crate) fn key(alloc: Global, space: &[u8], name: &[u8], text: &[u8]) -> Result<Many<u8>, Memory>
    ensures { IfOk result (λ it. it ≡ keys.key space.now name.now text.now) }
{
    let mut bytes = Bytes::new(alloc);
    push_marked(&mut bytes, space)?;
    push_marked(&mut bytes, name)?;
    bytes.push_slice(text)?;
    Ok(Many::from_vec(bytes.into_vec()))
}

/// The key for which a content match asks.
pub(crate) fn elem_key(alloc: Global, elem: &Elem) -> Result<Many<u8>, Memory>
    ensures { IfOk result (λ it. it ≡ keys.elem_key elem.now) }
{
    if !has_no_attribute(&elem.attrs) {
        return Ok(Many::new(alloc));
    }
    let text = elem_text(alloc, elem)?;
    let space = elem.name.space.as_str().as_bytes();
    let name = elem.name.name.as_str().as_bytes();
    Ok(key(alloc, space, name, text.as_slice())?)
}

/// The key of an element's name.
pub(crate) fn name_key(alloc: Global, elem: &Elem) -> Result<Many<u8>, Memory>
    ensures { IfOk result (λ it. it ≡ keys.name_key elem.now) }
{
    if !has_no_attribute(&elem.attrs) {
        return Ok(Many::new(alloc));
    }
    let space = elem.name.space.as_str().as_bytes();
    let name = elem.name.name.as_str().as_bytes();
    Ok(key(alloc, space, name, &[])?)
}

// The keys of a value of a data node.
fn value_keys(alloc: Global, node: &Node, value: &Text) -> Result<Many<Many<u8>>, Memory>
    ensures { IfOk result (λ it. it ≡ keys.value_keys node.now value.now) }
{
    let text = trimmed_bytes(value.as_str().as_bytes());
    let space = node.name.space.as_str().as_bytes();
    let name = node.name.name.as_str().as_bytes();
    let mut out = Many::new(alloc);
    out.push(key(alloc, space, name, text)?)?;
    out.push(key(alloc, &[], name, text)?)?;
    Ok(out)
}

fn row_node<'s>(schema: &'s Schema, row: &Row) -> Option<&'s Node>
    ensures { option_copied result ≡ keys.row_node schema.now row.now }
{
    match last_step(row.path.steps.as_slice()) {
        Some(step) => schema.node(step.node),
        None => None,
    }
}

fn some_value_keys(
    alloc: Global,
    node: &Node,
    value: &Option<Text>,
) -> Result<Many<Many<u8>>, Memory>
    ensures { IfOk result (λ it. it ≡ option_map_or (keys.value_keys node.now) value.now []) }
{
    match value {
        Some(value) => Ok(value_keys(alloc, node, value)?),
        None => Ok(Many::new(alloc)),
    }
}

/// The keys of a row.
pub(crate) fn row_keys(alloc: Global, schema: &Schema, row: &Row) -> Result<Many<Many<u8>>, Memory>
    ensures { IfOk result (λ it. it ≡ keys.row_keys schema.now row.now) }
{
    match row_node(schema, row) {
        Some(node) => Ok(some_value_keys(alloc, node, &row.value)?),
        None => Ok(Many::new(alloc)),
    }
}

fn rows_keys(alloc: Global, schema: &Schema, rows: &[&Row]) -> Result<Many<Many<u8>>, Memory>
    ensures { IfOk result (λ it. it ≡ flat_map (keys.row_keys schema.now) (map (λ row. row.now) rows.now)) }
{
    let mut out = Many::new(alloc);
    for row in rows {
        out.append(row_keys(alloc, schema, row)?)?;
    }
    Ok(out)
}

/// The keys of the rows directly in an instance.
pub(crate) fn keys_in<'a>(
    alloc: Global,
    schema: &Schema,
    index: &Index<'a>,
    above: &'a [Step],
) -> Result<Many<Many<u8>>, Memory>
    ensures { IfOk result (λ it. (all : List Row) → IsIndex index.now.table all →
        it ≡ keys.keys_in schema.now all above.now) }
{
    match index.children(above) {
        Some(inside) => Ok(rows_keys(alloc, schema, inside.as_slice())?),
        None => Ok(rows_keys(alloc, schema, &[])?),
    }
}

/// What the content matches at the level of an element ask for.
pub(crate) fn asked(alloc: Global, elem: &Elem) -> Result<Many<Many<u8>>, Memory>
    ensures { IfOk result (λ it. it ≡ keys.asked elem.now) }
{
    let mut out = Many::new(alloc);
    for part in elem.parts.as_slice() {
        if let Some(inner) = child(part) {
            if is_content_match(inner) {
                out.push(elem_key(alloc, inner)?)?;
            }
        }
    }
    Ok(out)
}

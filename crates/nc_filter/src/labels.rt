//! Labels: what the elements of a level select but for its containment nodes, and what a row is selected by.
ghost use Rattle.std.specs.Prelude.{◌≡◌, ◌∷◌, ◌++◌, ◌+◌, ◌<◌, ◌^◌, [], if◌then◌else◌, IfOk, map, slice_get};
ghost use Rattle.std.specs.Option.{option_map_or};
ghost use Rattle.nc_protocol.specs.Filter as meant;
ghost use Rattle.nc_filter.specs.inner.Keys.{node_labels};
ghost use Rattle.nc_filter.specs.inner.Labels as labels;

use crate::element::{child, is_containment, is_content_match};
use crate::keys::{elem_key, key, name_key, row_keys};
use crate::level::is_of_matches;
use crate::rows::{ends, node_at};
use crate::texts::bytes_of;
use nc_message::Elem;
use nc_names::{Many, Memory, Row};
use nc_schema::{Node, Schema};
use std::alloc::Global;

/// A key with a tag before it.
pub(crate) fn tagged(alloc: Global, tag: u8, key: Many<u8>) -> Result<Many<u8>, Memory>
    ensures { IfOk result (λ it. it ≡ tag ∷ key) }
{
    let mut out = Many::new(alloc);
    out.push(tag)?;
    out.append(key)?;
    Ok(out)
}

fn elem_label(alloc: Global, elem: &Elem) -> Result<Many<u8>, Memory>
    ensures { IfOk result (λ it. it ≡ labels.elem_label elem.now) }
{
    if is_content_match(elem) {
        return Ok(tagged(alloc, 1, elem_key(alloc, elem)?)?);
    }
    Ok(tagged(alloc, 0, name_key(alloc, elem)?)?)
}

// The empty label, where nothing but content matches stands at the level.
fn whole_label(alloc: Global, elem: &Elem) -> Result<Many<Many<u8>>, Memory>
    ensures { IfOk result (λ it. it
        ≡ (if meant.is_of_matches (meant.level_of elem.now) then [] ∷ [] else [])) }
{
    let mut out = Many::new(alloc);
    if is_of_matches(&elem.parts) {
        out.push(Many::new(alloc))?;
    }
    Ok(out)
}

/// The labels of the level of an element; containment nodes have none.
pub(crate) fn level_labels(alloc: Global, elem: &Elem) -> Result<Many<Many<u8>>, Memory>
    ensures { IfOk result (λ it. it ≡ labels.level_labels elem.now) }
{
    let mut out = whole_label(alloc, elem)?;
    for part in elem.parts.as_slice() {
        if let Some(inner) = child(part) {
            if !is_containment(inner) {
                out.push(elem_label(alloc, inner)?)?;
            }
        }
    }
    Ok(out)
}

fn node_labels(alloc: Global, node: &Node) -> Result<Many<Many<u8>>, Memory>
    ensures { IfOk result (λ it. it ≡ node_labels node.now) }
{
    let space = node.name.space.as_str().as_bytes();
    let name = node.name.name.as_str().as_bytes();
    let mut out = Many::new(alloc);
    out.push(tagged(alloc, 0, key(alloc, space, name, &[])?)?)?;
    out.push(tagged(alloc, 0, key(alloc, &[], name, &[])?)?)?;
    Ok(out)
}

/// The labels of the name of a data node.
pub(crate) fn named_labels(
    alloc: Global,
    schema: &Schema,
    number: u32,
) -> Result<Many<Many<u8>>, Memory>
    ensures { IfOk result (λ it. it ≡ option_map_or node_labels (slice_get schema.now.nodes number) []) }
{
    match schema.node(number) {
        Some(node) => Ok(node_labels(alloc, node)?),
        None => Ok(Many::new(alloc)),
    }
}

/// Adds keys, as labels of texts.
pub(crate) fn with_texts(
    alloc: Global,
    out: Many<Many<u8>>,
    keys: &[Many<u8>],
) -> Result<Many<Many<u8>>, Memory>
    ensures { IfOk result (λ it. it ≡ out ++ map (λ key. 1 ∷ key) keys.now) }
{
    let mut out = out;
    for key in keys {
        out.push(tagged(alloc, 1, bytes_of(alloc, key.as_slice())?)?)?;
    }
    Ok(out)
}

// The labels of a row at or below a data node, at a depth.
fn labels_at(
    alloc: Global,
    schema: &Schema,
    depth: usize,
    row: &Row,
    number: u32,
) -> Result<Many<Many<u8>>, Memory>
    requires { depth + 1 < 2 ^ 64 }
    ensures { IfOk result (λ it. it ≡ labels.labels_at schema.now depth row.now number) }
{
    let out = named_labels(alloc, schema, number)?;
    if !ends(depth, row) {
        return Ok(out);
    }
    let keys = row_keys(alloc, schema, row)?;
    let more = with_texts(alloc, out, keys.as_slice())?;
    Ok(more)
}

/// The labels of a row, in an instance at a depth above it.
pub(crate) fn row_labels(
    alloc: Global,
    schema: &Schema,
    depth: usize,
    row: &Row,
) -> Result<Many<Many<u8>>, Memory>
    ensures { IfOk result (λ it. it ≡ labels.row_labels schema.now depth row.now) }
{
    let mut out = Many::new(alloc);
    out.push(Many::new(alloc))?;
    match node_at(depth, row) {
        Some(number) => {
            out.append(labels_at(alloc, schema, depth, row, number)?)?;
            Ok(out)
        }
        None => Ok(out),
    }
}

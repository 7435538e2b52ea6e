//! The keys and the value of a row.
ghost use Rattle.std.specs.Prelude.{◌≡◌, length, map, take, IfOk};
ghost use Rattle.std.specs.Option.{option_copied};
ghost use Rattle.nc_record.specs.inner.Placing as placing;

use crate::spelled::Spelled;
use nc_names::{Copies, Many, Memory, Text};
use nc_schema::{Kind, Node, Schema};
use std::alloc::Global;

// The first rows, so many of them, or all where there are fewer.
fn front(rows: &[Spelled], count: usize) -> &[Spelled]
    ensures { result.now ≡ take count rows.now }
{
    if count < rows.len() {
        &rows[..count]
    } else {
        rows
    }
}

// The values of rows.
fn values_of(alloc: Global, rows: &[Spelled]) -> Result<Many<Text>, Memory>
    ensures { IfOk result (λ it. it ≡ map (λ row. row.value) rows.now) }
{
    let mut values = Many::new(alloc);
    for row in rows {
        values.push(row.value.copy()?)?;
    }
    Ok(values)
}

// The keys of a row at a data node.
fn keys_at(
    alloc: Global,
    node: &Node,
    spelled: &Spelled,
    following: &[Spelled],
) -> Result<Many<Text>, Memory>
    ensures { IfOk result (λ it. it ≡ placing.keys_by node.now.kind (length node.now.keys) spelled.now.value
        following.now) }
{
    match node.kind {
        Kind::List => values_of(alloc, front(following, node.keys.len())),
        Kind::LeafList => {
            let mut keys = Many::new(alloc);
            keys.push(spelled.value.copy()?)?;
            Ok(keys)
        }
        Kind::Leaf | Kind::Container { .. } => Ok(Many::new(alloc)),
    }
}

/// The keys of a row.
pub(crate) fn keys_of(
    alloc: Global,
    schema: &Schema,
    spelled: &Spelled,
    following: &[Spelled],
) -> Result<Many<Text>, Memory>
    ensures { IfOk result (λ it. it ≡ placing.keys_of schema.now spelled.now following.now) }
{
    match schema.node(spelled.node) {
        Some(node) => keys_at(alloc, node, spelled, following),
        None => Ok(Many::new(alloc)),
    }
}

// Whether a data node has a value.
fn has_value(node: Option<&Node>) -> bool
    ensures { result ≡ placing.has_a_value (option_copied node.entry) }
{
    match node {
        Some(node) => node.kind.has_value(),
        None => false,
    }
}

/// The value of a row.
pub(crate) fn value_of(schema: &Schema, spelled: &Spelled) -> Result<Option<Text>, Memory>
    ensures { IfOk result (λ it. it ≡ placing.value_of schema.now spelled.now) }
{
    if has_value(schema.node(spelled.node)) {
        return Ok(Some(spelled.value.copy()?));
    }
    Ok(None)
}

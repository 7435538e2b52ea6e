//! Values that may have module names as prefixes.
ghost use Rattle.std.specs.Prelude.{◌≡◌, false, IfOk};
ghost use Rattle.std.specs.List.{list_any};
ghost use Rattle.std.specs.Option.{option_map_or};
ghost use Rattle.nc_schema.specs.Values.{type_of};
ghost use Rattle.nc_protocol.specs.ModuleNames as names;

use crate::latest::Latest;
use crate::module_names::push_names;
use nc_message::Bounds;
use nc_names::{Bound, Many, Memory, Text};
use nc_schema::{Kind, Schema, ValueType};
use std::alloc::Global;

// The type of a leaf or leaf-list.
fn type_of(schema: &Schema, number: u32) -> Option<u32>
    ensures { result ≡ type_of schema.now number }
{
    let node = schema.node(number)?;
    match node.kind {
        Kind::Leaf | Kind::LeafList => Some(node.kind_of_value),
        _ => None,
    }
}

// Whether one of the types may hold module names.
#[cycle(holds)]
fn any_holds(schema: &Schema, most: usize, members: &[u32]) -> bool
    ensures { result ≡ list_any (names.holds_names schema.now most) members.now }
{
    for member in members {
        if holds_names(schema, most, *member) {
            return true;
        }
    }
    false
}

// Whether a value of the type may hold module names, looking through at most so many types.
#[cycle(holds)]
fn holds_names(schema: &Schema, most: usize, number: u32) -> bool
    ensures { result ≡ names.holds_names schema.now most number }
{
    if most == 0 {
        return false;
    }
    let Some(value_type) = schema.value_type(number) else {
        return false;
    };
    match value_type {
        ValueType::Union { members } => any_holds(schema, most - 1, members.as_slice()),
        ValueType::Leafref { target, .. } => target_holds(schema, most - 1, *target),
        ValueType::Identity { .. } => true,
        ValueType::Instance { .. } => true,
        ValueType::NodeInstance => true,
        _ => false,
    }
}

// Whether a value of the leaf or leaf-list may.
#[cycle(holds)]
fn target_holds(schema: &Schema, most: usize, target: u32) -> bool
    ensures { result ≡ option_map_or (names.holds_names schema.now most) (type_of schema.now target) false }
{
    match type_of(schema, target) {
        Some(number) => holds_names(schema, most, number),
        None => false,
    }
}

// Whether a value of that data node may hold module names.
fn value_holds_names(schema: &Schema, number: u32) -> bool
    ensures { result ≡ names.value_holds_names schema.now number }
{
    target_holds(schema, schema.types().len(), number)
}

/// Adds the bindings of the module names in a value of that data node.
pub(crate) fn push_value(
    schema: &Schema,
    number: u32,
    text: &Text,
    bounds: &mut Many<Bound>,
) -> Result<(), Memory>
    ensures { IfOk result (λ _. bounds.new ≡ names.with_value schema.now bounds.old number text.now) }
{
    if !value_holds_names(schema, number) {
        return Ok(());
    }
    push_names(schema, text.as_str().as_bytes(), bounds)
}

/// The bindings of the module names in a value of that data node: those that were made last, where they are
/// the same.
pub(crate) fn value_bounds(
    alloc: Global,
    schema: &Schema,
    number: u32,
    text: &Text,
    latest: &mut Latest,
) -> Result<Bounds, Memory>
    ensures { IfOk result (λ it. it ≡ names.value_bounds schema.now number text.now) }
{
    let mut bounds = Many::new(alloc);
    push_value(schema, number, text, &mut bounds)?;
    if bounds.is_empty() {
        return Ok(Bounds::new());
    }
    latest.bounds_of(alloc, bounds)
}

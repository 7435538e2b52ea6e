//! The element of a data node.
ghost use Rattle.std.specs.Prelude.{◌≡◌, ◌++◌, [], IfOk};
ghost use Rattle.std.specs.Option.{option_copied, option_map_or};
ghost use Rattle.nc_protocol.specs.Content.{text_parts};
ghost use Rattle.nc_protocol.specs.ModuleNames as names;
ghost use Rattle.nc_protocol.specs.Printed as printed;

use crate::latest::Latest;
use crate::value_types::value_bounds;
use nc_message::{Bounds, Elem, Part};
use nc_names::{Boxed, Copies, Many, Memory, Text};
use nc_schema::{Node, Schema};
use std::alloc::Global;

// A text as content, before other content.
fn with_text(alloc: Global, text: &Text, below: Many<Part>) -> Result<Many<Part>, Memory>
    ensures { IfOk result (λ it. it ≡ text_parts text.now ++ below) }
{
    let mut parts = Many::new(alloc);
    if !text.is_empty() {
        parts.push(Part::Chars(text.copy()?))?;
    }
    parts.append(below)?;
    Ok(parts)
}

// A value as content, before other content, which is moved where there is no value.
fn with_value(alloc: Global, value: Option<&Text>, below: Many<Part>) -> Result<Many<Part>, Memory>
    ensures { IfOk result (λ it. it
        ≡ option_map_or text_parts (option_copied value.entry) [] ++ below) }
{
    match value {
        Some(text) => with_text(alloc, text, below),
        None => Ok(below),
    }
}

// The bindings of the module names in a value.
fn bounds_of(
    alloc: Global,
    schema: &Schema,
    number: u32,
    value: Option<&Text>,
    latest: &mut Latest,
) -> Result<Bounds, Memory>
    ensures { IfOk result (λ it. it
        ≡ option_map_or (names.value_bounds schema.now number) (option_copied value.entry) []) }
{
    match value {
        Some(text) => value_bounds(alloc, schema, number, text, latest),
        None => Ok(Bounds::new()),
    }
}

/// The element of a data node, with its value and the elements below it.
pub(crate) fn node_part(
    alloc: Global,
    schema: &Schema,
    number: u32,
    node: &Node,
    value: Option<&Text>,
    below: Many<Part>,
    latest: &mut Latest,
) -> Result<Part, Memory>
    ensures { IfOk result (λ it. it
        ≡ printed.node_part schema.now number (option_copied value.entry) below node.now) }
{
    let elem = Elem {
        name: node.name.copy()?,
        bounds: bounds_of(alloc, schema, number, value, latest)?,
        attrs: Many::new(alloc),
        parts: with_value(alloc, value, below)?,
    };
    Ok(Part::Child(Boxed::new(alloc, elem)?))
}

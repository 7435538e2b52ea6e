//! Values and keys as the schema's types read them.
ghost use Rattle.std.specs.Prelude.{◌≡◌, IfOk};
ghost use Rattle.nc_schema.specs.Values as values;
ghost use Rattle.nc_protocol.specs.Payload as payload;

use nc_message::Bounds;
use nc_names::{Many, Memory, Text};
use nc_paths::{entry_keys, key_nodes};
use nc_schema::Schema;
use nc_types::TypeFault;
use std::alloc::Global;

/// The canonical text of a value of a node's type, or `None` where the text is none.
pub(crate) fn canonical(
    alloc: Global,
    schema: &Schema,
    number: u32,
    text: &str,
    bounds: &Bounds,
) -> Result<Option<Text>, Memory>
    ensures { IfOk result (λ it. it ≡ values.canonical schema.now number text.now bounds.now) }
{
    match nc_types::canonical(alloc, schema, number, text, bounds) {
        Ok(value) => Ok(Some(value)),
        Err(TypeFault::NotInType) => Ok(None),
        Err(TypeFault::Memory) => Err(Memory),
    }
}

// The canonical texts of keys, each as a value of its node's type.
fn canonical_keys(
    alloc: Global,
    schema: &Schema,
    nodes: &[u32],
    keys: &[Text],
    bounds: &Bounds,
) -> Result<Option<Many<Text>>, Memory>
    ensures { IfOk result (λ it. it ≡
        values.canonical_keys
        (λ key value. values.canonical schema.now key value bounds.now) nodes.now keys.now) }
{
    let mut out = Many::new(alloc);
    let mut rest = keys;
    for node in nodes {
        let Some((key, more)) = rest.split_first() else {
            return Ok(Some(out));
        };
        match canonical(alloc, schema, *node, key.as_str(), bounds)? {
            Some(value) => out.push(value)?,
            None => return Ok(None),
        }
        rest = more;
    }
    Ok(Some(out))
}

/// The canonical keys of the entry of a list that predicates name (RFC 7950 7.7.9).
pub(crate) fn canonical_entry(
    alloc: Global,
    schema: &Schema,
    number: u32,
    text: &str,
    bounds: &Bounds,
) -> Result<Option<Many<Text>>, Memory>
    ensures { IfOk result (λ it. it ≡ payload.canonical_entry schema.now number text.now bounds.now) }
{
    let Some(keys) = entry_keys(alloc, schema, number, text, bounds)? else {
        return Ok(None);
    };
    let nodes = key_nodes(alloc, schema, number)?;
    canonical_keys(alloc, schema, nodes.as_slice(), keys.as_slice(), bounds)
}

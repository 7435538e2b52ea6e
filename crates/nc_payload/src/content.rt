//! What an element says of its data node, which is read once.
ghost use Rattle.std.specs.Prelude.{◌≡◌, if◌then◌else◌, None, IfOk};
ghost use Rattle.nc_schema.specs.Kinds as kinds;
ghost use Rattle.nc_protocol.specs.Elements as meant;
ghost use Rattle.nc_protocol.specs.Payload.{reading_of};
ghost use Rattle.nc_payload.specs.inner.Reads.{content_of, meaning};

use crate::elements::{Named, step_of, value_in};
use nc_names::{Memory, Step, Text};
use nc_protocol::Under;
use nc_schema::Schema;
use std::alloc::Global;

/// What an element says of its data node: the last step of the path to it, and at a leaf or a leaf-list
/// entry its value, where that has a valid reading.
#[derive(Drop)]
pub(crate) struct Content {
    pub step: Step,
    pub value: Option<Text>,
}

fn value_of(alloc: Global, schema: &Schema, named: Named<'_>) -> Result<Option<Text>, Memory>
    ensures { IfOk result (λ it. it ≡
        (if kinds.has_value named.entry.node.now.kind then meant.value_in (reading_of schema.now)
        (meaning named.entry) else None)) }
{
    if named.node.kind.has_value() {
        return value_in(alloc, schema, named);
    }
    Ok(None)
}

/// Reads what an element says of its data node.
pub(crate) fn read_content(
    alloc: Global,
    schema: &Schema,
    under: Under,
    named: Named<'_>,
) -> Result<Content, Memory>
    ensures { IfOk result (λ it. it ≡ content_of (reading_of schema.now) under (meaning named.entry)) }
{
    Ok(Content {
        step: step_of(alloc, schema, under, named)?,
        value: value_of(alloc, schema, named)?,
    })
}

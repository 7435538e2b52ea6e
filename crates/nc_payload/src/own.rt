//! One element of a payload, without its children.
ghost use Rattle.std.specs.Prelude.{IfOk};
ghost use Rattle.nc_payload.specs.inner.Reads.{IsOf, Owns, OwnsNamed, meaning};
ghost use Rattle.nc_protocol.specs.Payload.{reading_of};

use crate::PayloadFault;
use crate::attributes::{operation_of, place_of};
use crate::content::{Content, read_content};
use crate::earlier::Earlier;
use crate::elements::{Named, find_named};
use crate::faults::{inside, own_fault, unknown_cause};
use nc_message::Elem;
use nc_names::{Memory, Place};
use nc_protocol::{EditOperation, Position};
use nc_schema::Schema;
use std::alloc::Global;

/// An element that names a data node and has no fault of its own.
#[derive(Drop)]
pub(crate) struct Found {
    pub content: Content,
    pub within: Position,
    pub operation: EditOperation,
    pub place: Place,
}

/// The first fault of an element without those of its children, or what is found of it.
pub(crate) fn own(
    alloc: Global,
    schema: &Schema,
    at: &Position,
    earlier: &Earlier,
    elem: &Elem,
) -> Result<Found, PayloadFault>
    ensures { Owns (reading_of schema.now) at.now earlier.now elem.now result }
{
    match find_named(schema, at.parent, elem) {
        Some(named) => find_own(alloc, schema, at, earlier, named),
        None => Err(PayloadFault::Bad(unknown_cause(alloc, schema, &at.above, &elem.name)?)),
    }
}

// What there is to find of an element, whether it has a fault or not.
fn read_named(
    alloc: Global,
    schema: &Schema,
    at: &Position,
    named: Named<'_>,
) -> Result<Found, Memory>
    ensures { IfOk result (λ it. IsOf (reading_of schema.now) at.now (meaning named.entry) it) }
{
    let content = read_content(alloc, schema, at.under, named)?;
    let within = inside(at, &content, named)?;
    Ok(Found {
        content,
        within,
        operation: operation_of(at.under, &named.elem.attrs),
        place: place_of(alloc, schema, named)?,
    })
}

fn find_own(
    alloc: Global,
    schema: &Schema,
    at: &Position,
    earlier: &Earlier,
    named: Named<'_>,
) -> Result<Found, PayloadFault>
    ensures { OwnsNamed (reading_of schema.now) at.now earlier.now (meaning named.entry) result }
{
    let found = read_named(alloc, schema, at, named)?;
    if let Some(cause) = own_fault(
        alloc,
        schema,
        at,
        earlier,
        &found.within,
        &found.content,
        named,
    )? {
        return Err(PayloadFault::Bad(cause));
    }
    Ok(found)
}

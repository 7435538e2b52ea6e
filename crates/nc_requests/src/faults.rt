//! The first fault of the elements of an operation.
ghost use Rattle.std.specs.Prelude.{◌≡◌, ◌≤◌, [], Some, length, map, take, IfOk};
ghost use Rattle.nc_protocol.specs.Decoded as decoded;
ghost use Rattle.nc_requests.specs.inner.Parameters.{means};

use crate::parameter::{Parameter, admits, parameter_named, refused, repeats};
use nc_message::Elem;
use nc_names::{CauseKind, Memory, QName, same_name};
use nc_protocol::Cause;
use std::alloc::Global;

// Whether one of the elements has the name.
fn has_name(name: &QName, elems: &[Elem]) -> bool
    ensures { result ≡ decoded.has_name name.now elems.now }
{
    elems.iter().any(|elem| same_name(&elem.name, name))
}

// The first elements, so many of them.
fn front(elems: &[Elem], count: usize) -> &[Elem]
    requires { count ≤ length elems.now }
    ensures { result.now ≡ take count elems.now }
{
    &elems[..count]
}

// The fault of an element as that parameter.
fn fault_as_parameter(
    alloc: Global,
    elems: &[Elem],
    earlier: &[Elem],
    elem: &Elem,
    parameter: Parameter,
) -> Result<Option<Cause>, Memory>
    ensures { IfOk result (λ it. it ≡ decoded.fault_as elems.now earlier.now elem.now (Some
        (means parameter))) }
{
    if !repeats(parameter) && has_name(&elem.name, earlier) {
        return Ok(Some(Cause::naming(
            alloc,
            CauseKind::RepeatedParameter,
            elem.name.name.as_str(),
        )?));
    }
    if admits(parameter, elems, elem)? {
        return Ok(None);
    }
    Ok(Some(refused(alloc, parameter)?))
}

// The fault of an element among the elements of an operation with these parameters.
fn fault_of(
    alloc: Global,
    among: &[Parameter],
    elems: &[Elem],
    earlier: &[Elem],
    elem: &Elem,
) -> Result<Option<Cause>, Memory>
    ensures { IfOk result (λ it. it ≡ decoded.fault_as elems.now earlier.now elem.now
        (decoded.parameter_named (map means among.now) elem.now.name)) }
{
    match parameter_named(among, &elem.name) {
        None => Ok(Some(Cause::naming(
            alloc,
            CauseKind::UnknownParameter,
            elem.name.name.as_str(),
        )?)),
        Some(parameter) => fault_as_parameter(alloc, elems, earlier, elem, parameter),
    }
}

/// The first fault of the elements of an operation with these parameters, in document order.
pub(crate) fn first_fault(
    alloc: Global,
    among: &[Parameter],
    elems: &[Elem],
) -> Result<Option<Cause>, Memory>
    ensures { IfOk result (λ it. it ≡ decoded.first_fault (map means among.now) elems.now [] elems.now) }
{
    for (place, elem) in elems.iter().enumerate() {
        let fault = fault_of(alloc, among, elems, front(elems, place), elem)?;
        if fault.is_some() {
            return Ok(fault);
        }
    }
    Ok(None)
}

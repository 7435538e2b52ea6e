//! The request of a message.
ghost use Rattle.std.specs.Prelude.{◌≡◌, [], ◌∷◌, None, slice_get, IfOk};
ghost use Rattle.std.specs.List.{list_any};
ghost use Rattle.nc_names.specs.declared.cause.CauseKind.TheVariants.{TwoOperations};
ghost use Rattle.nc_names.specs.Same.{is_same_name};
ghost use Rattle.nc_protocol.specs.Content as content;
ghost use Rattle.nc_protocol.specs.Decoded as decoded;
ghost use Rattle.nc_protocol.specs.Words as w;

use crate::asking::asked;
use crate::content::children;
use crate::operation::operation_named;
use nc_message::{Attr, Elem, Tree, Why};
use nc_names::{CauseKind, Many, Memory};
use nc_protocol::{Cause, Request, request_words as words};
use std::alloc::Global;

// A request that asks for nothing known, for a cause without names.
fn refused(alloc: Global, attributes: Many<Attr>, kind: CauseKind) -> Request
    ensures { result ≡ decoded.refused_request attributes kind [] }
{
    Request {
        attributes,
        operation: None,
        asked: Err(Cause::plain(alloc, kind)),
    }
}

// A request with a second operation.
fn refused_for(alloc: Global, attributes: Many<Attr>, second: &Elem) -> Result<Request, Memory>
    ensures { IfOk result (λ it. it ≡ decoded.refused_request attributes TwoOperations
        (second.now.name.name ∷ [])) }
{
    let cause = Cause::naming(alloc, CauseKind::TwoOperations, second.name.name.as_str())?;
    Ok(Request {
        attributes,
        operation: None,
        asked: Err(cause),
    })
}

// The request of an `rpc` with one child element.
fn request_by(alloc: Global, attributes: Many<Attr>, elem: Elem) -> Result<Request, Memory>
    ensures { IfOk result (λ it. it ≡ decoded.request_by attributes elem
        (decoded.operation_named elem.name)) }
{
    let Some(operation) = operation_named(&elem.name) else {
        return Ok(refused(alloc, attributes, CauseKind::UnknownOperation));
    };
    let asked = asked(alloc, operation, children(elem.parts)?)?;
    Ok(Request {
        attributes,
        operation: Some(operation),
        asked,
    })
}

// The request of an `rpc` that has no second child element.
fn request_in_one(
    alloc: Global,
    attributes: Many<Attr>,
    elems: Many<Elem>,
) -> Result<Request, Memory>
    requires { slice_get elems 1 ≡ None }
    ensures { IfOk result (λ it. it ≡ decoded.request_in attributes elems) }
{
    let mut elems = elems;
    match elems.pop() {
        None => Ok(refused(alloc, attributes, CauseKind::NoOperation)),
        Some(elem) => request_by(alloc, attributes, elem),
    }
}

// The request of an `rpc` with these child elements.
fn request_in(alloc: Global, attributes: Many<Attr>, elems: Many<Elem>) -> Result<Request, Memory>
    ensures { IfOk result (λ it. it ≡ decoded.request_in attributes elems) }
{
    match elems.get(1) {
        Some(second) => refused_for(alloc, attributes, second),
        None => request_in_one(alloc, attributes, elems),
    }
}

fn is_message_id(attr: &Attr) -> bool
    ensures { result ≡ decoded.is_message_id attr.now }
{
    attr.name.space.as_str() == "" && attr.name.name.as_str() == words::message_id()
}

fn has_message_id(attrs: &[Attr]) -> bool
    ensures { result ≡ list_any decoded.is_message_id attrs.now }
{
    attrs.iter().any(|attr| is_message_id(attr))
}

// The request of an `rpc`.
fn request_of(alloc: Global, rpc: Elem) -> Result<Request, Memory>
    ensures { IfOk result (λ it. it ≡ decoded.request_of rpc) }
{
    let Elem {
        name: _,
        bounds: _,
        attrs,
        parts,
    } = rpc;
    if !has_message_id(attrs.as_slice()) {
        return Ok(refused(alloc, attrs, CauseKind::NoMessageId));
    }
    request_in(alloc, attrs, children(parts)?)
}

fn is_rpc(elem: &Elem) -> bool
    ensures { result ≡ is_same_name elem.now.name (content.base_name w.rpc_word) }
{
    elem.name.space.as_str() == words::base_namespace() && elem.name.name.as_str() == words::rpc()
}

/// The request of a message, which is given as its tree or as why it has none (RFC 6241 4.1). The attributes
/// of `rpc` come with it; what is asked for, or the cause for which nothing is. Want of memory alone is an
/// error.
pub fn decode(alloc: Global, message: Result<Tree, Why>) -> Result<Request, Memory>
    ensures { IfOk result (λ it. it ≡ decoded.decoded message) }
{
    let Ok(tree) = message else {
        return Ok(refused(alloc, Many::new(alloc), CauseKind::Malformed));
    };
    if !is_rpc(&tree.root) {
        return Ok(refused(alloc, Many::new(alloc), CauseKind::Malformed));
    }
    request_of(alloc, tree.root)
}

//! The faults of one element of a payload, in their order.
ghost use Rattle.std.specs.Prelude.{◌≡◌, ◌==◌, ◌&&◌, ◌∷◌, [], not, option_map, IfOk, Some};
ghost use Rattle.std.specs.List.{list_any};
ghost use Rattle.nc_names.specs.Same as same;
ghost use Rattle.nc_names.specs.Same.{is_same_text};
ghost use Rattle.nc_schema.specs.Standing as standing;
ghost use Rattle.nc_protocol.specs.Faults as meant;
ghost use Rattle.nc_payload.specs.inner.Reads.{child_fault, content_of, element_by, meaning, shape_by};
ghost use Rattle.nc_payload.specs.inner.Reads.{value_by, within_of};
ghost use Rattle.nc_protocol.specs.Payload.{reading_of};

use crate::attributes::{attributes_fault, operation_of};
use crate::causes::{one_name, two_names};
use crate::content::{Content, read_content};
use crate::earlier::Earlier;
use crate::elements::{
    Named, first_child, has_child, has_text, is_dropped, is_key, named_part, remember, steps_to,
};
use nc_message::{Attr, Part};
use nc_names::{CauseKind, Copies, Many, Memory, QName, Step, Text};
use nc_protocol::{Cause, EditOperation, Position, Under};
use nc_schema::{Kind, Node, Schema};
use std::alloc::Global;

/// Whether each element there is a row, which stands once.
pub(crate) fn are_rows(under: Under) -> bool {
    matches!(under, Under::Rows { .. } | Under::Inline)
}

fn stands_once(under: Under, kind: Kind) -> bool
    ensures { result ≡ meant.stands_once under kind }
{
    matches!(under, Under::Rows { .. } | Under::Inline) || kind == Kind::Leaf
}

#[tactic(auto, using(crate::proofs::EarlierLemmas::any_clash))]
fn has_clash(schema: &Schema, under: Under, node: &Node, step: &Step, earlier: &Earlier) -> bool
    ensures { result ≡ list_any (meant.clashes schema.now under node.now step.now) earlier.now }
{
    let again = stands_once(under, node.kind) && earlier.has(step);
    let beside = earlier.has_other_case(schema, node);
    again || beside
}

fn has_bad_content(kind: Kind, parts: &Many<Part>) -> bool
    ensures { result ≡ meant.has_bad_content kind parts.now }
{
    if kind.has_value() {
        has_child(parts)
    } else {
        has_text(parts)
    }
}

fn shape_fault(
    alloc: Global,
    schema: &Schema,
    at: &Position,
    earlier: &Earlier,
    content: &Content,
    named: Named<'_>,
) -> Result<Option<Cause>, Memory>
    ensures { IfOk result (λ it. it ≡
        shape_by (reading_of schema.now) at.now earlier.now content.now.step (meaning named.entry)) }
{
    let bad = has_bad_content(named.node.kind, &named.elem.parts);
    let clash = has_clash(schema, at.under, named.node, &content.step, earlier);
    if bad || clash {
        return Ok(Some(Cause::inside(
            CauseKind::BadElement,
            at.above.copy()?,
            one_name(alloc, &named.elem.name.name)?,
        )));
    }
    Ok(None)
}

fn needs_value(operation: EditOperation) -> bool
    ensures { result ≡ meant.needs_value operation }
{
    matches!(
        operation,
        EditOperation::Merge | EditOperation::Replace | EditOperation::Create
    )
}

fn is_read(under: Under, operation: EditOperation, key: bool, kind: Kind) -> bool
    ensures { result ≡ meant.is_read under operation key kind }
{
    match kind {
        Kind::Container { .. } | Kind::List => false,
        Kind::LeafList => !is_dropped(under),
        Kind::Leaf => match under {
            Under::Edited { .. } => key || needs_value(operation),
            _ => key || !is_dropped(under),
        },
    }
}

fn value_fault(
    alloc: Global,
    schema: &Schema,
    at: &Position,
    content: &Content,
    named: Named<'_>,
) -> Result<Option<Cause>, Memory>
    ensures { IfOk result (λ it. it ≡
        value_by (reading_of schema.now) at.now content.now.value (meaning named.entry)) }
{
    let operation = operation_of(at.under, &named.elem.attrs);
    if !is_read(
        at.under,
        operation,
        is_key(schema, at, named),
        named.node.kind,
    ) {
        return Ok(None);
    }
    if content.value.is_some() {
        return Ok(None);
    }
    Ok(Some(Cause::inside(
        CauseKind::BadValue,
        steps_to(alloc, schema, at, named)?,
        Many::new(alloc),
    )))
}

// The first fault of an element without those of its keys, by what it says.
fn fault_by(
    alloc: Global,
    schema: &Schema,
    at: &Position,
    earlier: &Earlier,
    content: &Content,
    named: Named<'_>,
) -> Result<Option<Cause>, Memory>
    ensures { IfOk result (λ it. it ≡
        element_by (reading_of schema.now) at.now earlier.now content.now (meaning named.entry)) }
{
    if let Some(cause) = shape_fault(alloc, schema, at, earlier, content, named)? {
        return Ok(Some(cause));
    }
    if let Some(cause) = attributes_fault(alloc, schema, at, named)? {
        return Ok(Some(cause));
    }
    value_fault(alloc, schema, at, content, named)
}

// The same, where what it says is what was read of it.
fn element_fault(
    alloc: Global,
    schema: &Schema,
    at: &Position,
    earlier: &Earlier,
    content: &Content,
    named: Named<'_>,
) -> Result<Option<Cause>, Memory>
    requires { content.now ≡ content_of (reading_of schema.now) at.now.under (meaning named) }
    ensures { IfOk result (λ it. it ≡
        meant.element_fault (reading_of schema.now) at.now earlier.now (meaning named.entry)) }
{
    fault_by(alloc, schema, at, earlier, content, named)
}

fn under_edited(operation: EditOperation) -> Under
    ensures { result ≡ meant.under_edited operation }
{
    match operation {
        EditOperation::Merge | EditOperation::Nothing => Under::Edited { operation },
        EditOperation::Create | EditOperation::Replace => Under::Rows { operation },
        EditOperation::Delete | EditOperation::Remove => Under::Dropped { operation },
    }
}

fn under_element(under: Under, attrs: &Many<Attr>) -> Under
    ensures { result ≡ meant.under_element under attrs.now }
{
    match under {
        Under::Edited { .. } => under_edited(operation_of(under, attrs)),
        Under::Rows { .. } => Under::Rows {
            operation: operation_of(under, attrs),
        },
        Under::Inline => Under::Inline,
        Under::Dropped { .. } | Under::BelowDropped => Under::BelowDropped,
    }
}

/// Where the children of an element stand, by what it says.
pub(crate) fn inside(at: &Position, content: &Content, named: Named<'_>) -> Result<Position, Memory>
    ensures { IfOk result (λ it. it ≡ within_of at.now content.now (meaning named.entry)) }
{
    Ok(Position {
        above: at.above.copied_with(content.step.copy()?)?,
        parent: Some(named.number),
        under: under_element(at.under, &named.elem.attrs),
    })
}

fn local_name(alloc: Global, schema: &Schema, number: u32) -> Result<Many<Text>, Memory>
    ensures { IfOk result (λ it. it ≡ meant.local_name schema.now number ∷ []) }
{
    match schema.node(number) {
        Some(node) => one_name(alloc, &node.name.name),
        None => one_name(alloc, &Text::new(alloc)),
    }
}

fn missing_key(
    alloc: Global,
    schema: &Schema,
    at: &Position,
    named: Named<'_>,
) -> Result<Option<Cause>, Memory>
    ensures { IfOk result (λ it. it ≡
        meant.missing_key (reading_of schema.now) at.now (meaning named.entry)) }
{
    for key in named.node.keys.as_slice() {
        if first_child(schema, named, *key).is_none() {
            return Ok(Some(Cause::inside(
                CauseKind::MissingKey,
                steps_to(alloc, schema, at, named)?,
                local_name(alloc, schema, *key)?,
            )));
        }
    }
    Ok(None)
}

fn named_key_fault(
    alloc: Global,
    schema: &Schema,
    at: &Position,
    earlier: &Earlier,
    key: Named<'_>,
) -> Result<Option<Cause>, Memory>
    ensures { IfOk result (λ it. it ≡
        meant.element_fault (reading_of schema.now) at.now earlier.now (meaning key.entry)) }
{
    let content = read_content(alloc, schema, at.under, key)?;
    element_fault(alloc, schema, at, earlier, &content, key)
}

fn key_fault(
    alloc: Global,
    schema: &Schema,
    at: &Position,
    earlier: &Earlier,
    child: Option<Named<'_>>,
) -> Result<Option<Cause>, Memory>
    ensures { IfOk result (λ it. it ≡
        child_fault (reading_of schema.now) at.now earlier.now (option_map meaning child.entry)) }
{
    match child {
        Some(child) if is_key(schema, at, child) => named_key_fault(
            alloc, schema, at, earlier, child,
        ),
        _ => Ok(None),
    }
}

fn keys_fault(
    alloc: Global,
    schema: &Schema,
    at: &Position,
    parts: &Many<Part>,
) -> Result<Option<Cause>, Memory>
    ensures { IfOk result (λ it. it ≡ meant.keys_fault (reading_of schema.now) at.now [] parts.now) }
{
    let mut earlier = Earlier::new(alloc, are_rows(at.under));
    for part in parts.as_slice() {
        let child = named_part(schema, at.parent, part);
        if let Some(cause) = key_fault(alloc, schema, at, &earlier, child)? {
            return Ok(Some(cause));
        }
        earlier = remember(alloc, schema, at, child, earlier)?;
    }
    Ok(None)
}

fn entry_fault(
    alloc: Global,
    schema: &Schema,
    at: &Position,
    within: &Position,
    named: Named<'_>,
) -> Result<Option<Cause>, Memory>
    requires { within.now ≡ meant.inside (reading_of schema.now) at.now (meaning named) }
    ensures { IfOk result (λ it. it ≡
        meant.entry_fault (reading_of schema.now) at.now (meaning named.entry)) }
{
    if named.node.kind != Kind::List {
        return Ok(None);
    }
    if let Some(cause) = missing_key(alloc, schema, at, named)? {
        return Ok(Some(cause));
    }
    keys_fault(alloc, schema, within, &named.elem.parts)
}

/// The first fault of an element itself, inside which its children stand.
pub(crate) fn own_fault(
    alloc: Global,
    schema: &Schema,
    at: &Position,
    earlier: &Earlier,
    within: &Position,
    content: &Content,
    named: Named<'_>,
) -> Result<Option<Cause>, Memory>
    requires within { within.now ≡ meant.inside (reading_of schema.now) at.now (meaning named) }
    requires content { content.now ≡ content_of (reading_of schema.now) at.now.under (meaning named) }
    ensures { IfOk result (λ it. it ≡
        meant.own_fault (reading_of schema.now) at.now earlier.now (meaning named.entry)) }
{
    if let Some(cause) = element_fault(alloc, schema, at, earlier, content, named)? {
        return Ok(Some(cause));
    }
    entry_fault(alloc, schema, at, within, named)
}

fn is_known_space(schema: &Schema, space: &Text) -> bool
    ensures { result ≡ list_any (λ found. is_same_text found.space space.now) schema.now.modules }
{
    schema.modules().iter().any(|found| found.space == *space)
}

/// An element that is no data node of the schema there.
pub(crate) fn unknown_cause(
    alloc: Global,
    schema: &Schema,
    above: &Many<Step>,
    name: &QName,
) -> Result<Cause, Memory>
    ensures { IfOk result (λ it. it ≡ meant.unknown_cause schema.now above.now name.now) }
{
    if is_known_space(schema, &name.space) {
        return Ok(Cause::inside(
            CauseKind::UnknownElement,
            above.copy()?,
            one_name(alloc, &name.name)?,
        ));
    }
    Ok(Cause::inside(
        CauseKind::UnknownNamespace,
        above.copy()?,
        two_names(alloc, &name.name, &name.space)?,
    ))
}

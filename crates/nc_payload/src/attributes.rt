//! The attributes of a payload's elements.
ghost use Rattle.std.specs.Prelude.{◌≡◌, [], ◌∷◌, false, IfOk, option_map};
ghost use Rattle.std.specs.Option.{option_copied};
ghost use Rattle.std.specs.List.{find, list_any};
ghost use Rattle.nc_protocol.specs.Edited as edited;
ghost use Rattle.nc_protocol.specs.Attributes as meant;
ghost use Rattle.nc_payload.specs.inner.Reads.{meaning};
ghost use Rattle.nc_protocol.specs.Payload.{reading_of};

use crate::causes::two_names;
use crate::elements::{Named, is_key, one_text, steps_to};
use crate::texts::{canonical, canonical_entry};
use crate::words;
use nc_message::Attr;
use nc_names::{CauseKind, Many, Memory, Place, Text};
use nc_protocol::{Cause, EditOperation, Position, Under};
use nc_schema::{Node, Schema};
use std::alloc::Global;

fn is_operation(attr: &Attr) -> bool
    ensures { result ≡ meant.is_operation attr.now }
{
    let space = attr.name.space.as_str();
    attr.name.name.as_str() == words::operation_word()
        && (space == words::base_namespace() || space == "")
}

fn is_yang(name: &str, attr: &Attr) -> bool
    ensures { result ≡ meant.is_yang name.now attr.now }
{
    attr.name.name.as_str() == name && attr.name.space.as_str() == words::yang_namespace()
}

fn operation_of_word(word: &str) -> Option<EditOperation>
    ensures { result ≡ meant.operation_of_word word.now }
{
    if word == words::merge_word() {
        Some(EditOperation::Merge)
    } else if word == words::replace_word() {
        Some(EditOperation::Replace)
    } else if word == words::create_word() {
        Some(EditOperation::Create)
    } else if word == words::delete_word() {
        Some(EditOperation::Delete)
    } else if word == words::remove_word() {
        Some(EditOperation::Remove)
    } else {
        None
    }
}

fn handed_down(under: Under) -> EditOperation
    ensures { result ≡ meant.handed_down under }
{
    match under {
        Under::Edited { operation } | Under::Rows { operation } | Under::Dropped { operation } =>
            operation,
        Under::Inline | Under::BelowDropped => EditOperation::Nothing,
    }
}

fn find_operation(attrs: &Many<Attr>) -> Option<&Attr>
    ensures { option_copied result ≡ find meant.is_operation attrs.now }
{
    attrs.as_slice().iter().find(|attr| is_operation(attr))
}

fn find_yang<'a>(name: &str, attrs: &'a Many<Attr>) -> Option<&'a Attr>
    ensures { option_copied result ≡ find (meant.is_yang name.now) attrs.now }
{
    attrs.as_slice().iter().find(|attr| is_yang(name, attr))
}

/// An element's operation: its own, else its parent's.
pub(crate) fn operation_of(under: Under, attrs: &Many<Attr>) -> EditOperation
    ensures { result ≡ meant.operation_of under attrs.now }
{
    match find_operation(attrs) {
        Some(attr) => operation_of_word(attr.value.as_str()).unwrap_or(handed_down(under)),
        None => handed_down(under),
    }
}

fn is_same_operation(operation: EditOperation, other: EditOperation) -> bool
    ensures { result ≡ meant.is_same_operation operation other }
{
    operation == other && operation != EditOperation::Nothing
}

fn takes_operation(under: Under, key: bool, operation: EditOperation) -> bool
    ensures { result ≡ meant.takes_operation under key operation }
{
    match under {
        Under::Edited { operation: above } => !key || is_same_operation(operation, above),
        Under::Rows { operation: above } if key => is_same_operation(operation, above),
        Under::Rows { .. } => !matches!(operation, EditOperation::Delete | EditOperation::Remove),
        Under::Dropped { operation: above } => key && is_same_operation(operation, above),
        Under::Inline | Under::BelowDropped => false,
    }
}

fn anchor_word(node: &Node) -> &'static str
    ensures { result.now ≡ edited.anchor_word node.now }
{
    if node.kind.has_value() {
        words::value_word()
    } else {
        words::key_word()
    }
}

fn find_anchor<'a>(named: Named<'a>) -> Option<&'a Attr>
    ensures { option_copied result ≡
        find (meant.is_yang (edited.anchor_word named.entry.node.now)) named.entry.elem.now.attrs }
{
    find_yang(anchor_word(named.node), &named.elem.attrs)
}

fn has_anchor(named: Named<'_>) -> bool
    ensures { result ≡ meant.has_anchor (meaning named.entry) }
{
    named
        .elem
        .attrs
        .as_slice()
        .iter()
        .any(|attr| is_yang(anchor_word(named.node), attr))
}

fn is_insert_word(anchored: bool, word: &str) -> bool
    ensures { result ≡ meant.is_insert_word anchored word.now }
{
    word == words::first_word()
        || word == words::last_word()
        || (anchored && (word == words::before_word() || word == words::after_word()))
}

/// The anchor that an attribute names: an entry by its keys, or a leaf-list's by its value.
fn anchor_in(
    alloc: Global,
    schema: &Schema,
    named: Named<'_>,
    attr: &Attr,
) -> Result<Option<Many<Text>>, Memory>
    ensures { IfOk result (λ it. it ≡
        meant.anchor_in (reading_of schema.now) (meaning named.entry) attr.now) }
{
    if named.node.kind.has_value() {
        return anchor_value(alloc, schema, named, attr);
    }
    canonical_entry(
        alloc,
        schema,
        named.number,
        attr.value.as_str(),
        &named.elem.bounds,
    )
}

fn anchor_value(
    alloc: Global,
    schema: &Schema,
    named: Named<'_>,
    attr: &Attr,
) -> Result<Option<Many<Text>>, Memory>
    ensures { IfOk result (λ it. it ≡ option_map (λ value. value ∷
        []) ((reading_of schema.now).value named.entry.number attr.now.value named.entry.elem.now.bounds)) }
{
    match canonical(
        alloc,
        schema,
        named.number,
        attr.value.as_str(),
        &named.elem.bounds,
    )? {
        Some(value) => Ok(Some(one_text(alloc, value)?)),
        None => Ok(None),
    }
}

fn place_of_word(word: &str, anchor: Many<Text>) -> Place
    ensures { result ≡ meant.place_of_word word.now anchor }
{
    if word == words::first_word() {
        Place::First
    } else if word == words::last_word() {
        Place::Last
    } else if word == words::before_word() {
        Place::Before(anchor)
    } else {
        Place::After(anchor)
    }
}

fn anchor_keys(alloc: Global, schema: &Schema, named: Named<'_>) -> Result<Many<Text>, Memory>
    ensures { IfOk result (λ it. it ≡ meant.anchor_keys (reading_of schema.now) (meaning named.entry)) }
{
    match find_anchor(named) {
        Some(attr) => Ok(anchor_in(alloc, schema, named, attr)?.unwrap_or(Many::new(alloc))),
        None => Ok(Many::new(alloc)),
    }
}

/// Where `insert` puts an entry that the user orders.
pub(crate) fn place_of(alloc: Global, schema: &Schema, named: Named<'_>) -> Result<Place, Memory>
    ensures { IfOk result (λ it. it ≡ meant.place_of (reading_of schema.now) (meaning named.entry)) }
{
    if !named.node.by_user {
        return Ok(Place::Kept);
    }
    match find_yang(words::insert_word(), &named.elem.attrs) {
        Some(attr) => Ok(place_of_word(attr.value.as_str(), anchor_keys(alloc, schema, named)?)),
        None => Ok(Place::Kept),
    }
}

fn has_operation(under: Under) -> bool
    ensures { result ≡ meant.has_operation under }
{
    !matches!(under, Under::Inline)
}

fn is_placed(under: Under, node: &Node) -> bool
    ensures { result ≡ meant.is_placed under node.now }
{
    match under {
        Under::Rows { .. } | Under::Inline => false,
        _ => node.by_user,
    }
}

fn reads_operation(
    schema: &Schema,
    at: &Position,
    named: Named<'_>,
    given: bool,
    attr: &Attr,
) -> bool
    ensures { result ≡
        meant.reads_operation (reading_of schema.now) at.now (meaning named.entry) given attr.now }
{
    if given {
        return false;
    }
    match operation_of_word(attr.value.as_str()) {
        Some(operation) => takes_operation(at.under, is_key(schema, at, named), operation),
        None => false,
    }
}

fn reads_insertion(
    alloc: Global,
    schema: &Schema,
    named: Named<'_>,
    attr: &Attr,
) -> Result<bool, Memory>
    ensures { IfOk result (λ it. it ≡
        meant.reads_insertion (reading_of schema.now) (meaning named.entry) attr.now) }
{
    if is_yang(words::insert_word(), attr)
        && is_insert_word(has_anchor(named), attr.value.as_str())
    {
        return Ok(true);
    }
    if is_yang(anchor_word(named.node), attr) {
        return Ok(anchor_in(alloc, schema, named, attr)?.is_some());
    }
    Ok(false)
}

fn is_insertion(attr: &Attr) -> bool
    ensures { result ≡ meant.is_insertion attr.now }
{
    is_yang(words::insert_word(), attr)
        || is_yang(words::key_word(), attr)
        || is_yang(words::value_word(), attr)
}

fn kind_unless(reads: bool, kind: CauseKind) -> Option<CauseKind>
    ensures { result ≡ meant.kind_unless reads kind }
{
    if reads { None } else { Some(kind) }
}

fn attribute_fault(
    alloc: Global,
    schema: &Schema,
    at: &Position,
    named: Named<'_>,
    given: bool,
    attr: &Attr,
) -> Result<Option<CauseKind>, Memory>
    ensures { IfOk result (λ it. it ≡
        meant.attribute_fault (reading_of schema.now) at.now (meaning named.entry) given attr.now) }
{
    if is_operation(attr) && has_operation(at.under) {
        return Ok(kind_unless(
            reads_operation(schema, at, named, given, attr),
            CauseKind::BadAttribute,
        ));
    }
    if is_insertion(attr) && is_placed(at.under, named.node) {
        return Ok(kind_unless(
            reads_insertion(alloc, schema, named, attr)?,
            CauseKind::BadAttribute,
        ));
    }
    Ok(Some(CauseKind::UnknownAttribute))
}

fn attribute_cause(
    alloc: Global,
    schema: &Schema,
    at: &Position,
    named: Named<'_>,
    attr: &Attr,
    kind: CauseKind,
) -> Result<Cause, Memory>
    ensures { IfOk result (λ it. it ≡
        meant.attribute_cause (reading_of schema.now) at.now (meaning named.entry) attr.now kind) }
{
    let steps = steps_to(alloc, schema, at, named)?;
    Ok(Cause::inside(
        kind,
        steps,
        two_names(alloc, &attr.name.name, &named.elem.name.name)?,
    ))
}

/// The first fault among the attributes of an element.
pub(crate) fn attributes_fault(
    alloc: Global,
    schema: &Schema,
    at: &Position,
    named: Named<'_>,
) -> Result<Option<Cause>, Memory>
    ensures { IfOk result (λ it. it ≡
        meant.attributes_fault (reading_of schema.now) at.now
        (meaning named.entry) false named.entry.elem.now.attrs) }
{
    let mut given = false;
    for attr in named.elem.attrs.as_slice() {
        if let Some(kind) = attribute_fault(alloc, schema, at, named, given, attr)? {
            return Ok(Some(attribute_cause(alloc, schema, at, named, attr, kind)?));
        }
        given = given || is_operation(attr);
    }
    Ok(None)
}

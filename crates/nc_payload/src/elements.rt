//! Elements of a payload, the data nodes that they name, and the texts in them.
ghost use Rattle.std.specs.Prelude.{◌≡◌, ◌++◌, ◌∷◌, [], ◌==◌, Some, not, IfSome, IfOk, OnOk};
ghost use Rattle.std.specs.Prelude.{option_and_then, option_map};
ghost use Rattle.std.specs.List.{list_any};
ghost use Rattle.std.specs.Option.{option_copied};
ghost use Rattle.nc_names.specs.Signs as signs;
ghost use Rattle.nc_schema.specs.Order.{keys_above};
ghost use Rattle.nc_schema.specs.Children as children;
ghost use Rattle.nc_protocol.specs.Elements as meant;
ghost use Rattle.nc_payload.specs.inner.Reads.{IsText, meaning, with_child};
ghost use Rattle.nc_protocol.specs.Payload.{reading_of};

use crate::earlier::Earlier;
use crate::texts::canonical;
use nc_message::{Elem, Part};
use nc_names::{Many, Memory, QName, Step, Text, is_white};
use nc_protocol::{Position, Under};
use nc_schema::{Kind, Node, Schema};
use std::alloc::Global;

/// An element that is a data node of the schema.
#[derive(Clone, Copy)]
pub(crate) struct Named<'a> {
    pub number: u32,
    pub node: &'a Node,
    pub elem: &'a Elem,
}

/// What an element names among the children of a data node, or at the top.
pub(crate) fn find_named<'a>(
    schema: &'a Schema,
    parent: Option<u32>,
    elem: &'a Elem,
) -> Option<Named<'a>>
    ensures { option_map meaning result ≡ meant.named (reading_of schema.now) parent elem.now }
{
    let number = child_number(schema, parent, &elem.name)?;
    let node = schema.node(number)?;
    Some(Named { number, node, elem })
}

fn child_number(schema: &Schema, parent: Option<u32>, name: &QName) -> Option<u32>
    ensures { result ≡ children.child_number schema.now parent name.now }
{
    schema.child(parent, name)
}

/// The text of an element without child elements.
pub(crate) fn text_in(alloc: Global, parts: &Many<Part>) -> Result<Text, Memory>
    ensures { IfOk result (λ it. it ≡ meant.whole_text parts.now) }
{
    let mut text = Text::new(alloc);
    for part in parts.as_slice() {
        push_text_of(part, &mut text)?;
    }
    Ok(text)
}

// The text of an element that has nothing else, which is not put together.
fn only_text(parts: &Many<Part>) -> Option<&Text>
    ensures { IfSome result (λ it. IsText parts.now it.now) }
{
    if parts.len() != 1 {
        return None;
    }
    let Some((first, _)) = parts.as_slice().split_first() else {
        return None;
    };
    match first {
        Part::Chars(text) => Some(text),
        Part::Child(_) => None,
    }
}

fn push_text_of(part: &Part, out: &mut Text) -> Result<(), Memory>
    ensures { OnOk result (out.new ≡ out.old ++ meant.text_of part.now) }
{
    match part {
        Part::Chars(text) => out.push_str(text.as_str()),
        Part::Child(_) => Ok(()),
    }
}

fn is_child(part: &Part) -> bool
    ensures { result ≡ meant.is_child part.now }
{
    match part {
        Part::Chars(_) => false,
        Part::Child(_) => true,
    }
}

/// Whether there is a child element.
pub(crate) fn has_child(parts: &Many<Part>) -> bool
    ensures { result ≡ meant.has_child parts.now }
{
    parts.as_slice().iter().any(|part| is_child(part))
}

fn is_dark(part: &Part) -> bool
    ensures { result ≡ list_any (λ sign. not (signs.is_white sign)) (meant.text_of part.now) }
{
    match part {
        Part::Chars(text) => text.as_str().as_bytes().iter().any(|byte| !is_white(*byte)),
        Part::Child(_) => false,
    }
}

/// Whether there is text that is not white space.
pub(crate) fn has_text(parts: &Many<Part>) -> bool
    ensures { result ≡ meant.has_text parts.now }
{
    parts.as_slice().iter().any(|part| is_dark(part))
}

/// The element that a part is, if it is one.
pub(crate) fn elem_of(part: &Part) -> Option<&Elem>
    ensures { option_copied result ≡ meant.elem_of part.now }
{
    match part {
        Part::Child(elem) => Some(elem.get()),
        Part::Chars(_) => None,
    }
}

/// What a part names, if it is an element that names a data node.
pub(crate) fn named_part<'a>(
    schema: &'a Schema,
    parent: Option<u32>,
    part: &'a Part,
) -> Option<Named<'a>>
    ensures { option_map meaning result ≡ meant.named_part (reading_of schema.now) parent part.now }
{
    find_named(schema, parent, elem_of(part)?)
}

/// The value of a leaf or of a leaf-list entry.
pub(crate) fn value_in(
    alloc: Global,
    schema: &Schema,
    named: Named<'_>,
) -> Result<Option<Text>, Memory>
    ensures { IfOk result (λ it. it ≡ meant.value_in (reading_of schema.now) (meaning named.entry)) }
{
    if let Some(text) = only_text(&named.elem.parts) {
        return canonical(
            alloc,
            schema,
            named.number,
            text.as_str(),
            &named.elem.bounds,
        );
    }
    if has_child(&named.elem.parts) {
        return Ok(None);
    }
    let text = text_in(alloc, &named.elem.parts)?;
    canonical(
        alloc,
        schema,
        named.number,
        text.as_str(),
        &named.elem.bounds,
    )
}

/// The first child of an entry that is the data node of that number.
pub(crate) fn first_child<'a>(
    schema: &'a Schema,
    entry: Named<'a>,
    number: u32,
) -> Option<Named<'a>>
    ensures { option_map meaning result ≡
        meant.first_child (reading_of schema.now) (meaning entry.entry) number }
{
    for part in entry.elem.parts.as_slice() {
        if let Some(child) = named_part(schema, Some(entry.number), part) {
            if child.number == number {
                return Some(child);
            }
        }
    }
    None
}

fn key_value(
    alloc: Global,
    schema: &Schema,
    entry: Named<'_>,
    key: u32,
) -> Result<Option<Text>, Memory>
    ensures { IfOk result (λ it. it ≡
        option_and_then (meant.value_in (reading_of schema.now))
        (meant.first_child (reading_of schema.now) (meaning entry.entry) key)) }
{
    match first_child(schema, entry, key) {
        Some(child) => value_in(alloc, schema, child),
        None => Ok(None),
    }
}

fn key_values(
    alloc: Global,
    schema: &Schema,
    entry: Named<'_>,
    keys: &Many<u32>,
) -> Result<Option<Many<Text>>, Memory>
    ensures { IfOk result (λ it. it ≡
        meant.key_values (reading_of schema.now) (meaning entry.entry) keys.now) }
{
    let mut values = Many::new(alloc);
    for key in keys.as_slice() {
        match key_value(alloc, schema, entry, *key)? {
            Some(value) => values.push(value)?,
            None => return Ok(None),
        }
    }
    Ok(Some(values))
}

/// Whether elements are read for their keys alone.
pub(crate) fn is_dropped(under: Under) -> bool
    ensures { result ≡ meant.is_dropped under }
{
    matches!(under, Under::Dropped { .. } | Under::BelowDropped)
}

/// The keys of an entry, or a leaf-list entry's value, where they have a reading.
pub(crate) fn keys_read(
    alloc: Global,
    schema: &Schema,
    named: Named<'_>,
) -> Result<Option<Many<Text>>, Memory>
    ensures { IfOk result (λ it. it ≡
        meant.keys_read (reading_of schema.now) named.entry.node.now.kind (meaning named.entry)) }
{
    match named.node.kind {
        Kind::Container { .. } | Kind::Leaf => Ok(Some(Many::new(alloc))),
        Kind::LeafList => entry_value(alloc, schema, named),
        Kind::List => key_values(alloc, schema, named, &named.node.keys),
    }
}

fn entry_value(
    alloc: Global,
    schema: &Schema,
    named: Named<'_>,
) -> Result<Option<Many<Text>>, Memory>
    ensures { IfOk result (λ it. it ≡ option_map (λ value. value ∷
        []) (meant.value_in (reading_of schema.now) (meaning named.entry))) }
{
    match value_in(alloc, schema, named)? {
        Some(value) => Ok(Some(one_text(alloc, value)?)),
        None => Ok(None),
    }
}

/// A list of one text.
pub(crate) fn one_text(alloc: Global, text: Text) -> Result<Many<Text>, Memory>
    ensures { IfOk result (λ it. it ≡ text ∷ []) }
{
    let mut texts = Many::new(alloc);
    texts.push(text)?;
    Ok(texts)
}

// The keys in the path to an element's node, none where they are not read or have no reading.
fn keys_of(
    alloc: Global,
    schema: &Schema,
    under: Under,
    named: Named<'_>,
) -> Result<Many<Text>, Memory>
    ensures { IfOk result (λ it. it ≡ meant.keys_of (reading_of schema.now) under (meaning named.entry)) }
{
    if is_dropped(under) && named.node.kind.has_value() {
        return Ok(Many::new(alloc));
    }
    match keys_read(alloc, schema, named)? {
        Some(keys) => Ok(keys),
        None => Ok(Many::new(alloc)),
    }
}

/// The last step of the path to an element's node.
pub(crate) fn step_of(
    alloc: Global,
    schema: &Schema,
    under: Under,
    named: Named<'_>,
) -> Result<Step, Memory>
    ensures { IfOk result (λ it. it ≡ meant.step_of (reading_of schema.now) under (meaning named.entry)) }
{
    let keys = keys_of(alloc, schema, under, named)?;
    Ok(Step {
        node: named.number,
        keys,
    })
}

/// The path to an element's node.
pub(crate) fn steps_to(
    alloc: Global,
    schema: &Schema,
    at: &Position,
    named: Named<'_>,
) -> Result<Many<Step>, Memory>
    ensures { IfOk result (λ it. it ≡ meant.steps_to (reading_of schema.now) at.now (meaning named.entry)) }
{
    at.above
        .copied_with(step_of(alloc, schema, at.under, named)?)
}

/// Remembers the step to a child, if there is one.
pub(crate) fn remember(
    alloc: Global,
    schema: &Schema,
    at: &Position,
    child: Option<Named<'_>>,
    earlier: Earlier,
) -> Result<Earlier, Memory>
    ensures { IfOk result (λ it. it ≡
        with_child (reading_of schema.now) at.now earlier (option_map meaning child.entry)) }
{
    match child {
        Some(named) => earlier.with(step_of(alloc, schema, at.under, named)?),
        None => Ok(earlier),
    }
}

/// Whether an element is a key of the entry in which it stands.
pub(crate) fn is_key(schema: &Schema, at: &Position, named: Named<'_>) -> bool
    ensures { result ≡ meant.is_key (reading_of schema.now) at.now (meaning named.entry) }
{
    match at.parent {
        Some(parent) => has_key(schema, parent, named.number),
        None => false,
    }
}

fn has_key(schema: &Schema, parent: u32, number: u32) -> bool
    ensures { result ≡ list_any (λ key. key == number) (keys_above schema.now (Some parent)) }
{
    match schema.node(parent) {
        Some(node) => node.keys.as_slice().iter().any(|key| *key == number),
        None => false,
    }
}

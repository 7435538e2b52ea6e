//! What an element of a filter is, and which data nodes it names (RFC 6241 6.2).
ghost use Rattle.std.specs.Prelude.{◌≡◌, ◌&&◌, ◌||◌, [], not, None};
ghost use Rattle.std.specs.List.{list_any, last_or};
ghost use Rattle.std.specs.Option.{option_copied};
ghost use Rattle.nc_names.specs.Same.{is_same_text};
ghost use Rattle.nc_names.specs.Signs as signs;
ghost use Rattle.nc_protocol.specs.Elements as elements;
ghost use Rattle.nc_protocol.specs.Filter as meant;
ghost use Rattle.nc_filter.specs.inner.Picks.{is_named};

use crate::text::text_of;
use nc_message::{Attr, Elem, Part};
use nc_names::{Many, Step, Text, is_white};
use nc_schema::{Node, Schema};

/// The child element that a part is.
pub(crate) fn child(part: &Part) -> Option<&Elem>
    ensures { option_copied result ≡ elements.elem_of part.now }
{
    part.child()
}

fn has_sign(part: &Part) -> bool
    ensures { result ≡ list_any (λ sign. not (signs.is_white sign)) (elements.text_of part.now) }
{
    text_of(part).as_bytes().iter().any(|b| !is_white(*b))
}

fn is_child(part: &Part) -> bool
    ensures { result ≡ elements.is_child part.now }
{
    match part.text() {
        Some(_) => false,
        None => true,
    }
}

/// Whether an element is a content match node (RFC 6241 6.2.5).
pub(crate) fn is_content_match(elem: &Elem) -> bool
    ensures { result ≡ meant.is_content_match elem.now }
{
    elem.parts.as_slice().iter().any(|part| has_sign(part))
}

fn has_child(elem: &Elem) -> bool
    ensures { result ≡ elements.has_child elem.now.parts }
{
    elem.parts.as_slice().iter().any(|part| is_child(part))
}

/// Whether an element is a containment node (RFC 6241 6.2.3).
pub(crate) fn is_containment(elem: &Elem) -> bool
    ensures { result ≡ meant.is_containment elem.now }
{
    has_child(elem) && !is_content_match(elem)
}

/// Whether there is no attribute.
pub(crate) fn has_no_attribute(attrs: &Many<Attr>) -> bool
    ensures { result ≡ meant.has_no_attribute attrs.now }
{
    attrs.is_empty()
}

fn is_nothing(text: &Text) -> bool
    ensures { result ≡ is_same_text text.now [] }
{
    text.is_empty()
}

fn is_same(text: &Text, other: &Text) -> bool
    ensures { result ≡ is_same_text text.now other.now }
{
    text == other
}

fn is_of_space(space: &Text, other: &Text) -> bool
    ensures { result ≡ (is_same_text space.now [] || is_same_text space.now other.now) }
{
    is_nothing(space) || is_same(space, other)
}

// Whether an element has the name of a data node.
fn is_of_name(elem: &Elem, node: &Node) -> bool
    ensures { result ≡ meant.is_of_name elem.now node.now }
{
    has_no_attribute(&elem.attrs)
        && is_same(&elem.name.name, &node.name.name)
        && is_of_space(&elem.name.space, &node.name.space)
}

/// Whether an element has the name of a data node.
pub(crate) fn is_named(schema: &Schema, number: u32, elem: &Elem) -> bool
    ensures { result ≡ is_named schema.now number elem.now }
{
    match schema.node(number) {
        Some(node) => is_of_name(elem, node),
        None => false,
    }
}

/// The last of some steps.
pub(crate) fn last_step(steps: &[Step]) -> Option<&Step>
    ensures { option_copied result ≡ last_or None steps.now }
{
    let mut last: Option<&Step> = None;
    for step in steps {
        last = Some(step);
    }
    last
}

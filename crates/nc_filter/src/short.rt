//! Filters without long namespaces. A prefix of a few octets may be bound to a name of megabytes, and what
//! asks for the name of each element would read it as often. An element whose namespace is longer than that
//! of each data node has the name of none (RFC 6241 6.2.1), so it is as well one that names nothing.
ghost use Rattle.std.specs.Prelude.{◌≡◌, ◌∷◌, ◌≤◌, ◌&&◌, [], false, not, List, IfOk, IfSome, length, slice_get};
ghost use Rattle.nc_names.specs.declared.path.Row.{Row};
ghost use Rattle.nc_message.specs.declared.tree.Part.TheVariants.{Child};
ghost use Rattle.nc_protocol.specs.Filter as meant;
ghost use Rattle.nc_filter.specs.inner.Short as inner;

use crate::element::has_no_attribute;
use nc_message::{Attr, Bounds, Elem, Part};
use nc_names::{Boxed, Copies, Many, Memory, QName, Text};
use nc_schema::Schema;
use std::alloc::Global;

/// A namespace of so many octets is short, whatever the schema is.
pub(crate) const SHORT: usize = 64;

// How many octets the namespace of a data node has.
fn space_len(schema: &Schema, number: u32) -> usize
    ensures { IfSome (slice_get schema.now.nodes number) (λ node. length node.name.space ≤ result) }
{
    match schema.node(number) {
        Some(node) => node.name.space.len(),
        None => 0,
    }
}

// How many octets the longest namespace of a data node has.
fn longest(schema: &Schema) -> usize
    ensures { inner.AreWithin schema.now result }
{
    let mut most = 0;
    for number in 0..schema.nodes() {
        let len = space_len(schema, number);
        if len > most {
            most = len;
        }
    }
    most
}

// Whether the namespace of an element has more octets.
fn is_long(elem: &Elem, most: usize) -> bool
    ensures { result ≡ inner.is_long most elem.now }
{
    elem.name.space.len() > most
}

// Whether the namespace of an element, or of one in it, has more octets.
#[cycle(longer)]
fn has_longer(elem: &Elem, most: usize) -> bool {
    if is_long(elem, most) {
        return true;
    }
    for part in elem.parts.as_slice() {
        if part_has_longer(part, most) {
            return true;
        }
    }
    false
}

#[cycle(longer)]
fn part_has_longer(part: &Part, most: usize) -> bool {
    match part {
        Part::Child(elem) => has_longer(elem.get(), most),
        Part::Chars(_) => false,
    }
}

// Whether an element may name a data node whose namespace has at most so many octets.
fn may_name(most: usize, elem: &Elem) -> bool
    ensures { result ≡ (meant.has_no_attribute elem.now.attrs && not (inner.is_long most elem.now)) }
{
    has_no_attribute(&elem.attrs) && !is_long(elem, most)
}

// An element with the name of another, and without attributes.
fn plain(alloc: Global, elem: &Elem, parts: Many<Part>) -> Result<Elem, Memory>
    ensures { IfOk result (λ it. it
        ≡ record { name = elem.now.name; bounds = []; attrs = []; parts = parts }) }
{
    Ok(Elem {
        name: elem.name.copy()?,
        bounds: Bounds::new(),
        attrs: Many::new(alloc),
        parts,
    })
}

// Some attribute.
fn attribute(alloc: Global) -> Attr {
    Attr {
        name: QName {
            space: Text::new(alloc),
            name: Text::new(alloc),
        },
        prefix: Text::new(alloc),
        value: Text::new(alloc),
    }
}

// An element that names no data node, since it has an attribute (RFC 6241 6.2.2).
fn nameless(alloc: Global, parts: Many<Part>) -> Result<Elem, Memory>
    ensures attrs { IfOk result (λ it. meant.has_no_attribute it.attrs ≡ false) }
    ensures parts { IfOk result (λ it. it.parts ≡ parts) }
{
    let mut attrs = Many::new(alloc);
    attrs.push(attribute(alloc))?;
    Ok(Elem {
        name: QName {
            space: Text::new(alloc),
            name: Text::new(alloc),
        },
        bounds: Bounds::new(),
        attrs,
        parts,
    })
}

// An element that names the data nodes that another does, if their namespaces have at most so many octets.
fn alike(alloc: Global, most: usize, elem: &Elem, parts: Many<Part>) -> Result<Elem, Memory>
    ensures names { IfOk result (inner.NameSame most elem.now) }
    ensures parts { IfOk result (λ it. it.parts ≡ parts) }
{
    if may_name(most, elem) {
        return Ok(plain(alloc, elem, parts)?);
    }
    Ok(nameless(alloc, parts)?)
}

// An element as content.
fn child_part(alloc: Global, elem: Elem) -> Result<Part, Memory>
    ensures { IfOk result (λ it. it ≡ Child elem) }
{
    Ok(Part::Child(Boxed::new(alloc, elem)?))
}

// An element in which each is alike.
#[cycle(short)]
fn short_elem(alloc: Global, most: usize, elem: &Elem) -> Result<Elem, Memory>
    ensures names { IfOk result (inner.NameSame most elem.now) }
    ensures parts { IfOk result (λ it. inner.AreAlike most elem.now.parts it.parts) }
{
    let mut parts = Many::new(alloc);
    for part in elem.parts.as_slice() {
        parts.push(short_part(alloc, most, part)?)?;
    }
    Ok(alike(alloc, most, elem, parts)?)
}

#[cycle(short)]
fn short_part(alloc: Global, most: usize, part: &Part) -> Result<Part, Memory>
    ensures { IfOk result (λ it. inner.AreAlike most (part.now ∷ []) (it ∷ [])) }
{
    match part {
        Part::Child(elem) => Ok(child_part(alloc, short_elem(alloc, most, elem.get())?)?),
        Part::Chars(text) => Ok(Part::Chars(text.copy()?)),
    }
}

/// A filter that keeps the same of all rows, in which no namespace is longer than those of the data nodes and
/// than a short one; `None` where the filter itself is such.
pub(crate) fn shortened(
    alloc: Global,
    schema: &Schema,
    filter: &Elem,
) -> Result<Option<Elem>, Memory>
    ensures { IfOk result (λ it. IfSome it (λ short. (rows : List Row) →
        meant.selected schema.now short rows ≡ meant.selected schema.now filter.now rows)) }
{
    if !has_longer(filter, SHORT) {
        return Ok(None);
    }
    let most = longest(schema);
    if !has_longer(filter, most) {
        return Ok(None);
    }
    Ok(Some(short_elem(alloc, most, filter)?))
}

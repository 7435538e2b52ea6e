//! Start tags: the namespace declarations and the attributes of an element.
#![tactic(auto, using(nc_names::proofs::Extending::extends_self, nc_names::proofs::Extending::extends_more))]

ghost use Rattle.std.specs.Prelude.{◌≡◌, [], ◌∷◌, ◌++◌, List, map, OnOk, OnErr, IfSome};
ghost use Rattle.std.specs.List.{flat_map, list_any};
ghost use Rattle.nc_names.specs.Appending.{Extends, Appends};
ghost use Rattle.nc_message.specs.inner.Declaring.{Declares};
ghost use Rattle.nc_message.specs.Written.{is_chars, is_declarable, default_declaration, prefix_declaration, declarations, use_of, start_tag, start_of, prefixed, attribute};

use crate::escape::push_quoted;
use crate::prefixes::Prefixes;
use crate::{Attr, Bounds, Elem, Part, marks};
use nc_names::{Bound, Bytes, Memory, QName, Text};

fn push_default(above: &str, space: &str, out: &mut Bytes) -> Result<(), Memory>
    ensures { Appends result out.old out.new (default_declaration above.now space.now) }
{
    if above == space {
        return Ok(());
    }
    out.push_slice(marks::default_namespace())?;
    push_quoted(space, out)
}

fn push_declaration(prefix: &str, space: &str, out: &mut Bytes) -> Result<(), Memory>
    ensures { Appends result out.old out.new
        (prefix_declaration (record { prefix = prefix.now; space = space.now })) }
{
    out.push_slice(marks::prefixed_namespace())?;
    out.push_slice(prefix.as_bytes())?;
    push_quoted(space, out)
}

/// Whether a prefix has to be declared: it is not empty, and not `xml`.
fn has_to_be_declared(prefix: &str) -> bool
    ensures { result ≡ is_declarable prefix.now }
{
    !prefix.is_empty() && prefix.as_bytes() != marks::xml_prefix()
}

/// Declares a prefix at its use, where it has to be declared and was not seen before.
fn push_use(seen: &mut Prefixes, prefix: &Text, space: &Text, out: &mut Bytes) -> Result<(), Memory>
    ensures ok { OnOk result (Declares seen.old.seen seen.new.seen out.old out.new
        (record { prefix = prefix.now; space = space.now } ∷ [])) }
    ensures err { OnErr result (Extends out.old out.new) }
{
    if !has_to_be_declared(prefix.as_str()) {
        return Ok(());
    }
    let added = seen.add(prefix)?;
    if !added {
        return Ok(());
    }
    push_declaration(prefix.as_str(), space.as_str(), out)?;
    Ok(())
}

fn push_attr_uses(attrs: &[Attr], seen: &mut Prefixes, out: &mut Bytes) -> Result<(), Memory>
    ensures ok { OnOk result (Declares seen.old.seen seen.new.seen out.old out.new (map use_of attrs.now)) }
    ensures err { OnErr result (Extends out.old out.new) }
{
    for attr in attrs {
        push_use(seen, &attr.prefix, &attr.name.space, out)?;
    }
    Ok(())
}

fn push_bound_uses(bounds: &Bounds, seen: &mut Prefixes, out: &mut Bytes) -> Result<(), Memory>
    ensures ok { OnOk result (Declares seen.old.seen seen.new.seen out.old out.new bounds.now) }
    ensures err { OnErr result (Extends out.old out.new) }
{
    let mut rest = bounds.iter();
    while let Some(bound) = rest.next() {
        push_use(seen, &bound.prefix, &bound.space, out)?;
    }
    Ok(())
}

// The only binding of an element, if it has one alone.
fn lone(bounds: &Bounds) -> Option<&Bound>
    ensures { IfSome result (λ bound. bounds.now ≡ bound.now ∷ []) }
{
    let mut rest = bounds.iter();
    let first = rest.next()?;
    if rest.next().is_some() {
        return None;
    }
    Some(first)
}

fn push_lone(prefix: &str, space: &str, out: &mut Bytes) -> Result<(), Memory>
    ensures { Appends result out.old out.new
        (declarations [] (record { prefix = prefix.now; space = space.now } ∷ [])) }
{
    if !has_to_be_declared(prefix) {
        return Ok(());
    }
    push_declaration(prefix, space, out)
}

// One use alone needs no set of what was seen, and no memory for it.
fn push_bounds(bounds: &Bounds, out: &mut Bytes) -> Result<(), Memory>
    ensures { Appends result out.old out.new (declarations [] bounds.now) }
{
    if let Some(bound) = lone(bounds) {
        return push_lone(bound.prefix.as_str(), bound.space.as_str(), out);
    }
    let mut seen = Prefixes::new(out.alloc());
    push_bound_uses(bounds, &mut seen, out)?;
    Ok(())
}

fn push_declarations(attrs: &[Attr], bounds: &Bounds, out: &mut Bytes) -> Result<(), Memory>
    ensures { Appends result out.old out.new (declarations [] (map use_of attrs.now ++ bounds.now)) }
{
    if attrs.is_empty() {
        return push_bounds(bounds, out);
    }
    let mut seen = Prefixes::new(out.alloc());
    push_attr_uses(attrs, &mut seen, out)?;
    push_bound_uses(bounds, &mut seen, out)?;
    Ok(())
}

fn push_prefix(prefix: &str, out: &mut Bytes) -> Result<(), Memory>
    ensures { Appends result out.old out.new (prefixed prefix.now) }
{
    if prefix.is_empty() {
        return Ok(());
    }
    out.push_slice(prefix.as_bytes())?;
    out.push(b':')
}

fn push_attribute(attr: &Attr, out: &mut Bytes) -> Result<(), Memory>
    ensures { Appends result out.old out.new (attribute attr.now) }
{
    out.push(b' ')?;
    push_prefix(attr.prefix.as_str(), out)?;
    out.push_slice(attr.name.name.as_str().as_bytes())?;
    push_quoted(attr.value.as_str(), out)
}

fn push_attributes(attrs: &[Attr], out: &mut Bytes) -> Result<(), Memory>
    ensures { Appends result out.old out.new (flat_map attribute attrs.now) }
{
    for attr in attrs {
        push_attribute(attr, out)?;
    }
    Ok(())
}

/// Appends `<name` with an element's declarations and attributes, below an element of the namespace
/// `above`, which is empty above a root; the end of the tag is still to come. It declares the
/// namespace of the name where that is another one, the prefixes of the attributes, and then all of
/// `bounds`: the bindings that the element's text uses, which are none where it has no text.
pub fn write_start(
    above: &str,
    name: &QName,
    bounds: &Bounds,
    attrs: &[Attr],
    out: &mut Bytes,
) -> Result<(), Memory>
    ensures { Appends result out.old out.new
        (start_tag above.now name.now attrs.now (map use_of attrs.now ++ bounds.now)) }
{
    out.push(b'<')?;
    out.push_slice(name.name.as_str().as_bytes())?;
    push_default(above, name.space.as_str(), out)?;
    push_declarations(attrs, bounds, out)?;
    push_attributes(attrs, out)
}

/// Appends the start tag of an element up to its end. Where it has text, all that is bound in it is used.
pub(crate) fn push_start(above: &str, elem: &Elem, out: &mut Bytes) -> Result<(), Memory>
    ensures { Appends result out.old out.new
        (start_of above.now elem.now.name elem.now.bounds elem.now.attrs elem.now.parts) }
{
    let attrs = elem.attrs.as_slice();
    if has_text(elem.parts.as_slice()) {
        return write_start(above, &elem.name, &elem.bounds, attrs, out);
    }
    write_start(above, &elem.name, &Bounds::new(), attrs, out)
}

/// Whether an element has text.
fn has_text(parts: &[Part]) -> bool
    ensures { result ≡ list_any is_chars parts.now }
{
    parts.iter().any(|part| matches!(part, Part::Chars(_)))
}

//! What a start tag means among the bindings outside of it (Namespaces in XML 1.0, 3 to 6; XML 1.0,
//! 3.1).
ghost use Rattle.std.specs.Prelude.{◌≡◌, ◌++◌, ◌∷◌, [], not, ◌&&◌, ◌||◌, None, Some, IfOk, OnOk, MatchOption, is_some, option_map};
ghost use Rattle.std.specs.Option.{option_copied};
ghost use Rattle.std.specs.List.{list_any, list_all};
ghost use Rattle.nc_names.specs.Same.{is_same_text};
ghost use Rattle.nc_names.specs.Bindings.{space_of};
ghost use Rattle.nc_message.specs.Bindings as bindings;
ghost use Rattle.nc_message_read.specs.inner.Opened.{open_of};
ghost use Rattle.nc_message_read.specs.inner.Sets.{DeclaredPrefixes, IsDeclaredToo};
ghost use Rattle.nc_message.specs.Resolved as resolved;

use crate::known::Known;
use crate::open::Open;
use crate::scope::{Said, Scope};
use crate::text::{all_chars, value_of};
use crate::written::{Attribute, Name, Tag, Word};
use nc_message::{Attr, Bounds};
use nc_names::{Copies, Many, Memory, QName, Text};
use std::alloc::Global;
use std::collections::BTreeSet;

fn is_xmlns(word: &Word<'_>) -> bool
    ensures { result ≡ resolved.is_xmlns word.now }
{
    word.chars == "xmlns"
}

fn is_xml(word: &Word<'_>) -> bool
    ensures { result ≡ resolved.is_xml word.now }
{
    word.chars == "xml"
}

/// The namespace of the prefix `xml`.
#[tactic(auto, unfolding(nc_message::specs::Resolved::xml_space))]
pub(crate) fn xml_space() -> &'static str
    ensures { result.now ≡ resolved.xml_space }
{
    "http://www.w3.org/XML/1998/namespace"
}

fn is_empty(word: &Word<'_>) -> bool
    ensures { result ≡ bindings.is_empty word.now }
{
    word.chars.is_empty()
}

/// Whether an attribute declares a namespace.
fn is_declaration(name: &Name<'_>) -> bool
    ensures { result ≡ resolved.is_declaration name.now }
{
    is_xmlns(&name.prefix) || is_empty(&name.prefix) && is_xmlns(&name.local)
}

fn text_of_word(alloc: Global, word: &Word<'_>) -> Result<Text, Memory>
    ensures { IfOk result (λ it. it ≡ word.now) }
{
    Text::from_text(alloc, word.chars)
}

/// The prefix that an attribute declares.
fn declared_prefix(alloc: Global, known: &mut Known, name: &Name<'_>) -> Result<Text, Memory>
    ensures { IfOk result (λ it. it ≡ resolved.declared_prefix name.now) }
{
    if is_empty(&name.prefix) {
        return Ok(Text::new(alloc));
    }
    known.name(name.local.chars)
}

/// Whether a prefix may not be declared for a namespace.
fn is_reserved(prefix: &Text, space: &Text) -> bool
    ensures { result ≡ resolved.is_reserved prefix.now space.now }
{
    prefix.as_str() == "xmlns" || prefix.as_str() == "xml" && space.as_str() != xml_space()
}

/// Whether a prefix may not be declared for a namespace, after what was declared.
fn is_refused(said: &Said, prefix: &Text, space: &Text) -> bool
    ensures { result ≡ (bindings.declares said.now prefix.now || resolved.is_reserved prefix.now space.now) }
{
    said.declares(prefix) || is_reserved(prefix, space)
}

/// Declares a prefix, where it may be.
fn bind(said: Said, prefix: Text, space: Text) -> Result<Option<Said>, Memory>
    ensures { IfOk result (λ it. it ≡ resolved.bind said prefix space) }
{
    if is_refused(&said, &prefix, &space) {
        return Ok(None);
    }
    if space.is_empty() {
        if !prefix.is_empty() {
            return Ok(None);
        }
        return Ok(Some(said.undeclare()));
    }
    Ok(Some(said.declare(prefix, space)?))
}

/// Declares what an attribute declares.
fn declare(
    alloc: Global,
    known: &mut Known,
    said: Said,
    attribute: &Attribute<'_>,
) -> Result<Option<Said>, Memory>
    ensures { IfOk result (λ it. it ≡ resolved.declare said attribute.now) }
{
    let prefix = declared_prefix(alloc, known, &attribute.name)?;
    match value_of(alloc, attribute.value.bytes)? {
        Some(space) => bind(said, prefix, space),
        None => Ok(None),
    }
}

/// What attributes declare, where each may be declared.
fn declared(
    alloc: Global,
    known: &mut Known,
    attributes: &[Attribute<'_>],
) -> Result<Option<Said>, Memory>
    ensures { IfOk result (λ found. MatchOption found
        (resolved.declared resolved.nothing attributes.now ≡ None)
        (λ said. resolved.declared resolved.nothing attributes.now ≡ Some said)) }
{
    let mut said = Said::new(alloc);
    for attribute in attributes {
        if is_declaration(&attribute.name) {
            let Some(more) = declare(alloc, known, said, attribute)? else {
                return Ok(None);
            };
            said = more;
        }
    }
    Ok(Some(said))
}

// The prefixes that the attributes of a tag declare.
fn declared_prefixes(alloc: Global, attributes: &[Attribute<'_>]) -> Result<BTreeSet<Text>, Memory>
    ensures { IfOk result (λ it. DeclaredPrefixes it attributes.now) }
{
    let mut prefixes = BTreeSet::new(alloc);
    for attribute in attributes {
        add_declared(alloc, &mut prefixes, &attribute.name)?;
    }
    Ok(prefixes)
}

// Puts the prefix that an attribute declares into a set.
fn add_declared(alloc: Global, prefixes: &mut BTreeSet<Text>, name: &Name<'_>) -> Result<(), Memory>
    ensures { OnOk result (IsDeclaredToo prefixes.old prefixes.new name.now) }
{
    if is_xmlns(&name.prefix) {
        prefixes.insert(text_of_word(alloc, &name.local)?)?;
    }
    Ok(())
}

// Whether one of the attributes of a tag declares a prefix.
fn is_declared_by(
    alloc: Global,
    attributes: &[Attribute<'_>],
    prefixes: &BTreeSet<Text>,
    prefix: &Word<'_>,
) -> Result<bool, Memory>
    requires { DeclaredPrefixes prefixes.now attributes.now }
    ensures { IfOk result (λ it. it ≡ resolved.is_declared_by attributes.now prefix.now) }
{
    if prefixes.is_empty() {
        return Ok(false);
    }
    let prefix = text_of_word(alloc, prefix)?;
    Ok(prefixes.contains(&prefix))
}

/// Whether a prefix is bound outside of an element.
fn is_bound(alloc: Global, outer: &Bounds, prefix: &Word<'_>) -> Result<bool, Memory>
    ensures { IfOk result (λ it. it ≡ is_some (space_of prefix.now outer.now)) }
{
    let prefix = text_of_word(alloc, prefix)?;
    Ok(outer.find(&prefix).is_some())
}

/// Whether a prefix needs a binding from a declaration.
fn needs_binding(prefix: &Word<'_>) -> bool
    ensures { result ≡ (not (bindings.is_empty prefix.now) && not (resolved.is_xml prefix.now)) }
{
    !is_empty(prefix) && !is_xml(prefix)
}

/// Whether a prefix in a tag of these attributes has no binding.
fn is_unbound(
    alloc: Global,
    outer: &Bounds,
    attributes: &[Attribute<'_>],
    prefixes: &BTreeSet<Text>,
    prefix: &Word<'_>,
) -> Result<bool, Memory>
    requires { DeclaredPrefixes prefixes.now attributes.now }
    ensures { IfOk result (λ it. it ≡ resolved.is_unbound outer.now attributes.now prefix.now) }
{
    if !needs_binding(prefix) {
        return Ok(false);
    }
    if is_xmlns(prefix) {
        return Ok(true);
    }
    if is_declared_by(alloc, attributes, prefixes, prefix)? {
        return Ok(false);
    }
    let bound = is_bound(alloc, outer, prefix)?;
    Ok(!bound)
}

/// Whether an attribute has a prefix without a binding.
fn is_unbound_attribute(
    alloc: Global,
    outer: &Bounds,
    attributes: &[Attribute<'_>],
    prefixes: &BTreeSet<Text>,
    name: &Name<'_>,
) -> Result<bool, Memory>
    requires { DeclaredPrefixes prefixes.now attributes.now }
    ensures { IfOk result (λ it. it ≡ (not (resolved.is_declaration name.now)
        && resolved.is_unbound outer.now attributes.now name.now.prefix)) }
{
    if is_declaration(name) {
        return Ok(false);
    }
    is_unbound(alloc, outer, attributes, prefixes, &name.prefix)
}

/// Whether one of the attributes has a prefix without a binding.
fn has_unbound_attribute(
    alloc: Global,
    outer: &Bounds,
    attributes: &[Attribute<'_>],
    prefixes: &BTreeSet<Text>,
) -> Result<bool, Memory>
    requires { DeclaredPrefixes prefixes.now attributes.now }
    ensures { IfOk result (λ it. it ≡ list_any (λ a. not (resolved.is_declaration a.name)
        && resolved.is_unbound outer.now attributes.now a.name.prefix) attributes.now) }
{
    for attribute in attributes {
        if is_unbound_attribute(alloc, outer, attributes, prefixes, &attribute.name)? {
            return Ok(true);
        }
    }
    Ok(false)
}

/// Whether a tag has a prefix without a binding.
pub(crate) fn has_unbound(alloc: Global, outer: &Bounds, tag: &Tag<'_>) -> Result<bool, Memory>
    ensures { IfOk result (λ it. it ≡ resolved.has_unbound outer.now tag.now) }
{
    let attributes = tag.attributes.as_slice();
    let prefixes = declared_prefixes(alloc, attributes)?;
    if is_unbound(alloc, outer, attributes, &prefixes, &tag.name.prefix)? {
        return Ok(true);
    }
    has_unbound_attribute(alloc, outer, attributes, &prefixes)
}

/// What a prefix of a name is bound to.
fn space_for(bounds: &Bounds, prefix: &Text) -> Result<Option<Text>, Memory>
    ensures { IfOk result (λ it. it ≡ resolved.space_for bounds.now prefix.now) }
{
    if prefix.as_str() == "xml" {
        return Ok(Some(Text::from_text(prefix.alloc(), xml_space())?));
    }
    match bounds.find(prefix) {
        Some(space) => Ok(Some(space.copy()?)),
        None => Ok(None),
    }
}

/// What the prefix of an attribute's name is bound to; without a prefix it has no namespace.
fn attr_space(bounds: &Bounds, prefix: &Text) -> Result<Option<Text>, Memory>
    ensures { IfOk result (λ it. it ≡ resolved.attr_space bounds.now prefix.now) }
{
    if prefix.is_empty() {
        return Ok(Some(Text::new(prefix.alloc())));
    }
    space_for(bounds, prefix)
}

/// The default namespace, or an empty text where there is none.
fn default_space(alloc: Global, bounds: &Bounds) -> Result<Text, Memory>
    ensures { IfOk result (λ it. it ≡ resolved.default_space (space_of [] bounds.now)) }
{
    match bounds.find(&Text::new(alloc)) {
        Some(space) => space.copy(),
        None => Ok(Text::new(alloc)),
    }
}

/// What the prefix of an element's name is bound to.
fn elem_space(bounds: &Bounds, prefix: &Text) -> Result<Option<Text>, Memory>
    ensures { IfOk result (λ it. it ≡ resolved.elem_space bounds.now prefix.now) }
{
    if prefix.is_empty() {
        return Ok(Some(default_space(prefix.alloc(), bounds)?));
    }
    space_for(bounds, prefix)
}

/// The attribute of a tree.
fn attr_of(
    alloc: Global,
    known: &mut Known,
    bounds: &Bounds,
    attribute: &Attribute<'_>,
) -> Result<Option<Attr>, Memory>
    ensures { IfOk result (λ it. it ≡ resolved.attr_of bounds.now attribute.now) }
{
    let prefix = known.name(attribute.name.prefix.chars)?;
    let name = known.name(attribute.name.local.chars)?;
    let Some(space) = attr_space(bounds, &prefix)? else {
        return Ok(None);
    };
    let Some(value) = value_of(alloc, attribute.value.bytes)? else {
        return Ok(None);
    };
    Ok(Some(Attr {
        name: QName { space, name },
        prefix,
        value,
    }))
}

/// The attributes but the declarations.
fn attrs_of(
    alloc: Global,
    known: &mut Known,
    bounds: &Bounds,
    attributes: &[Attribute<'_>],
) -> Result<Option<Many<Attr>>, Memory>
    ensures { IfOk result (λ it. it ≡ resolved.attrs_of bounds.now attributes.now) }
{
    let mut attrs = Many::new(alloc);
    for attribute in attributes {
        if is_declaration(&attribute.name) {
            continue;
        }
        let Some(attr) = attr_of(alloc, known, bounds, attribute)? else {
            return Ok(None);
        };
        attrs.push(attr)?;
    }
    Ok(Some(attrs))
}

fn is_allowed_name(name: &Name<'_>) -> bool
    ensures { result ≡ resolved.is_allowed_name name.now }
{
    all_chars(name.prefix.chars) && all_chars(name.local.chars)
}

fn are_allowed(attributes: &[Attribute<'_>]) -> bool
    ensures { result ≡ list_all (λ a. resolved.is_allowed_name a.name) attributes.now }
{
    for attribute in attributes {
        if !is_allowed_name(&attribute.name) {
            return false;
        }
    }
    true
}

fn are_allowed_names(tag: &Tag<'_>) -> bool
    ensures { result ≡ resolved.are_allowed_names tag.now }
{
    is_allowed_name(&tag.name) && are_allowed(tag.attributes.as_slice())
}

/// The element that a tag opens, among the bindings in force in it.
fn opened_in(
    alloc: Global,
    known: &mut Known,
    scope: &Scope,
    tag: &Tag<'_>,
) -> Result<Option<Open>, Memory>
    ensures { IfOk result (λ it. it ≡ option_map open_of (resolved.opened_in scope.now tag.now)) }
{
    let prefix = known.name(tag.name.prefix.chars)?;
    let name = known.name(tag.name.local.chars)?;
    let Some(space) = elem_space(scope.bounds(), &prefix)? else {
        return Ok(None);
    };
    let Some(attrs) = attrs_of(alloc, known, scope.bounds(), tag.attributes.as_slice())? else {
        return Ok(None);
    };
    if !scope.differ(alloc, attrs.as_slice())? {
        return Ok(None);
    }
    Ok(Some(Open {
        prefix,
        name: QName { space, name },
        bounds: scope.copy()?,
        attrs,
        parts: Many::new(alloc),
        text: Text::new(alloc),
    }))
}

/// The element that a tag opens, below these bindings.
pub(crate) fn opened(
    alloc: Global,
    known: &mut Known,
    outer: &Scope,
    tag: &Tag<'_>,
) -> Result<Option<Open>, Memory>
    ensures { IfOk result (λ it. it ≡ option_map open_of (resolved.opened outer.now tag.now)) }
{
    if !are_allowed_names(tag) {
        return Ok(None);
    }
    match declared(alloc, known, tag.attributes.as_slice())? {
        Some(said) => opened_in(alloc, known, &outer.below(alloc, said)?, tag),
        None => Ok(None),
    }
}

//! Whether the names of attributes differ (Namespaces in XML 1.0, 6.3).
ghost use Rattle.std.specs.Prelude.{◌≡◌, [], IfOk};
ghost use Rattle.nc_message.specs.Resolved.{default_space, differ_from};
ghost use Rattle.nc_names.specs.Bindings.{space_of};
ghost use Rattle.nc_message_read.specs.inner.Marks.{AreFound, IsFound, attr_mark, key_of, sign_of};
ghost use Rattle.nc_message_read.specs.inner.Sets.{IsNameAdded};

use crate::marked::Marked;
use crate::marks::Marks;
use crate::start::xml_space;
use nc_message::{Attr, Bounds};
use nc_names::{Copies, Memory, QName, Text};
use std::alloc::Global;
use std::collections::BTreeSet;

/// Whether no attribute has the name of one before it, where their prefixes are bound to marks, if there are
/// marks.
pub(crate) fn are_apart(
    alloc: Global,
    marked: &Option<Marked>,
    attrs: &[Attr],
) -> Result<bool, Memory>
    requires { AreFound marked.now attrs.now }
    ensures { IfOk result (λ it. it ≡ differ_from [] attrs.now) }
{
    let mut names = BTreeSet::new(alloc);
    for attr in attrs {
        if !add_name(alloc, marked, &mut names, attr)? {
            return Ok(false);
        }
    }
    Ok(true)
}

// Puts the name of an attribute into a set, and answers whether it is new.
fn add_name(
    alloc: Global,
    marked: &Option<Marked>,
    names: &mut BTreeSet<QName>,
    attr: &Attr,
) -> Result<bool, Memory>
    requires { IsFound marked.now attr.now }
    ensures { IfOk result (λ added. IsNameAdded marked.now names.old names.new attr.now.name added) }
{
    let added = names.insert(key(alloc, marked, attr)?)?;
    Ok(added)
}

// The name of an attribute with what stands for its namespace. The local name comes first: names are ordered
// by it, and most differ there.
fn key(alloc: Global, marked: &Option<Marked>, attr: &Attr) -> Result<QName, Memory>
    requires { IsFound marked.now attr.now }
    ensures { IfOk result (λ it. it ≡ key_of marked.now attr.now.name) }
{
    Ok(QName {
        space: attr.name.name.copy()?,
        name: sign(alloc, marked, attr)?,
    })
}

// What stands for the namespace of an attribute: its mark, or the namespace where there are no marks.
fn sign(alloc: Global, marked: &Option<Marked>, attr: &Attr) -> Result<Text, Memory>
    requires { IsFound marked.now attr.now }
    ensures { IfOk result (λ it. it ≡ sign_of marked.now attr.now.name.space) }
{
    match marked {
        Some(marked) => mark_for(alloc, marked.marks.get(), &marked.bounds, &attr.prefix),
        None => attr.name.space.copy(),
    }
}

// The mark of the namespace of an attribute with this prefix.
fn mark_for(alloc: Global, marks: &Marks, marked: &Bounds, prefix: &Text) -> Result<Text, Memory>
    ensures { IfOk result (λ it. it ≡ attr_mark marks.now marked.now prefix.now) }
{
    if prefix.is_empty() {
        return Ok(Text::new(alloc));
    }
    if prefix.as_str() == "xml" {
        return marks.mark(alloc, &Text::from_text(alloc, xml_space())?);
    }
    mark_at(alloc, marked, prefix)
}

// The mark to which a prefix is bound, or an empty text where it is not.
fn mark_at(alloc: Global, marked: &Bounds, prefix: &Text) -> Result<Text, Memory>
    ensures { IfOk result (λ it. it ≡ default_space (space_of prefix.now marked.now)) }
{
    match marked.find(prefix) {
        Some(mark) => mark.copy(),
        None => Ok(Text::new(alloc)),
    }
}

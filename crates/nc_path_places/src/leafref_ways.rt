//! From where names lead down to a leaf or leaf-list: so much of the schema the paths of leafrefs can name.
ghost use Rattle.std.specs.Prelude.{◌≡◌, ◌<◌, ◌+◌, false, length, replicate, IfOk};
ghost use Rattle.nc_path_places.specs.inner.Counted.{HasUsable, reading_of};
ghost use Rattle.nc_path_places.specs.inner.LeafrefNames as spelled;
ghost use Rattle.nc_schema.specs.Children.{HasLowerParents};

use crate::candidates::{Names, is_nameable, stands};
use nc_names::{Many, Memory, Text, is_identifier};
use nc_paths::parent_of;
use nc_schema::{Kind, Schema};
use std::alloc::Global;

/// By what the path of a leafref is read: the names, the namespace of the leaf, and a mark for the top and
/// for each data node from which names lead down to a leaf or leaf-list.
#[derive(Drop)]
pub(crate) struct Ways<'n> {
    pub(crate) names: Names<'n>,
    pub(crate) own: &'n Text,
    pub(crate) marks: Many<bool>,
}

// The place of the mark.
fn place_of(above: Option<u32>) -> usize
    ensures { result ≡ spelled.place_of above }
{
    match above {
        Some(number) => number as usize + 1,
        None => 0,
    }
}

/// Whether names lead down from there to a leaf or leaf-list.
pub(crate) fn goes_down(marks: &[bool], above: Option<u32>) -> bool
    ensures { result ≡ spelled.goes_down marks.now above }
{
    match marks.get(place_of(above)) {
        Some(mark) => *mark,
        None => false,
    }
}

// Whether the data node is a leaf or leaf-list.
fn is_value(schema: &Schema, number: u32) -> bool
    ensures { result ≡ spelled.is_value schema.now number }
{
    match schema.node(number) {
        Some(node) => match node.kind {
            Kind::Leaf | Kind::LeafList => true,
            Kind::Container { .. } | Kind::List => false,
        },
        None => false,
    }
}

/// Whether a path can end at the data node or below it.
pub(crate) fn leads(schema: &Schema, marks: &[bool], number: u32) -> bool
    ensures { result ≡ spelled.leads schema.now marks.now number }
{
    if is_value(schema, number) {
        true
    } else {
        goes_down(marks, Some(number))
    }
}

/// Whether the name of the data node can be written without a prefix.
pub(crate) fn is_own(schema: &Schema, own: &Text, number: u32) -> bool
    ensures { result ≡ spelled.is_own schema.now own.now number }
{
    match schema.node(number) {
        Some(node) => {
            node.name.space == *own && is_identifier(node.name.name.as_str().as_bytes())
        }
        None => false,
    }
}

/// Whether the name of the data node can be written, with a prefix or without.
pub(crate) fn is_writable(names: &Names<'_>, own: &Text, number: u32) -> bool
    requires { HasUsable names.now }
    ensures { result ≡ spelled.is_writable (reading_of names.now) own.now number }
{
    if is_own(names.schema, own, number) {
        true
    } else {
        is_nameable(names, number)
    }
}

// Whether a name leads from its parent to the data node.
fn is_reached(names: &Names<'_>, own: &Text, number: u32) -> bool
    requires { HasUsable names.now }
    ensures { result ≡ spelled.is_reached (reading_of names.now) own.now number }
{
    if stands(names.schema, parent_of(names.schema, number), number) {
        is_writable(names, own, number)
    } else {
        false
    }
}

// The marks after one data node: from its parent names lead down to it and so to a value.
fn with_mark(names: &Names<'_>, own: &Text, marks: Many<bool>, number: u32) -> Many<bool>
    requires usable { HasUsable names.now }
    requires lower { HasLowerParents names.now.schema.now.nodes }
    requires within { number < length names.now.schema.now.nodes }
    requires marking { spelled.IsMarking (reading_of names.now) own.now marks (number + 1) }
    ensures { spelled.IsMarking (reading_of names.now) own.now result number }
{
    let mut marks = marks;
    if !is_reached(names, own, number) {
        return marks;
    }
    if !leads(names.schema, marks.as_slice(), number) {
        return marks;
    }
    marks.set(place_of(parent_of(names.schema, number)), true);
    marks
}

// So many marks, none of them set.
fn no_marks(alloc: Global, count: usize) -> Result<Many<bool>, Memory>
    ensures { IfOk result (λ it. it ≡ replicate count false) }
{
    let mut marks = Many::new(alloc);
    for turn in 0..count {
        marks.push(false)?;
    }
    Ok(marks)
}

/// The marks of a schema; the data nodes below one stand after it and are looked at before it.
pub(crate) fn marks_of(alloc: Global, names: &Names<'_>, own: &Text) -> Result<Many<bool>, Memory>
    requires { HasUsable names.now }
    ensures marks { IfOk result (λ it. spelled.HasMarks (reading_of names.now) own.now it) }
    ensures lower { IfOk result (λ it. HasLowerParents names.now.schema.now.nodes) }
{
    let mut left = names.schema.nodes();
    let mut marks = no_marks(alloc, left as usize + 1)?;
    while left > 0 {
        left -= 1;
        marks = with_mark(names, own, marks, left);
    }
    Ok(marks)
}

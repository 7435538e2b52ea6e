//! A message as a tree of elements.
ghost use Rattle.std.specs.Prelude.{◌≡◌, true, false, IfOk, MatchOption};
ghost use Rattle.nc_message.specs.Written.{is_chars};
ghost use Rattle.nc_message.specs.declared.tree.Part.TheVariants.{Child, Chars};

use crate::Bounds;
use nc_names::{Boxed, Copies, Many, Memory, QName, Text};

/// An attribute (XML 1.0, 3.1): its name, the prefix that it is written with, which is empty where
/// it has no namespace, and its value.
#[derive(PartialEq, Eq, Debug, Drop)]
pub struct Attr {
    /// The namespace and the local name.
    pub name: QName,
    /// The prefix that it is written with.
    pub prefix: Text,
    /// The value, its references resolved.
    pub value: Text,
}

impl Copies for Attr {
    fn copy(&self) -> Result<Attr, Memory> {
        Ok(Attr {
            name: self.name.copy()?,
            prefix: self.prefix.copy()?,
            value: self.value.copy()?,
        })
    }
}

/// An element (XML 1.0, 3): its name, the prefix bindings in force in it, the default namespace
/// among them with an empty prefix, its attributes without namespace declarations, and its content.
#[cycle(elem)]
#[derive(PartialEq, Eq, Debug, Drop)]
pub struct Elem {
    /// The namespace and the local name.
    pub name: QName,
    /// The bindings in force.
    pub bounds: Bounds,
    /// The attributes in their order.
    pub attrs: Many<Attr>,
    /// The content in its order.
    pub parts: Many<Part>,
}

/// A part of an element's content: a child element, or text.
#[cycle(elem)]
#[derive(PartialEq, Eq, Debug, Drop)]
pub enum Part {
    /// A child element.
    Child(Boxed<Elem>),
    /// Text, its references resolved.
    Chars(Text),
}

impl Part {
    /// The child element that the part is, or `None` where it is text.
    pub fn child(&self) -> Option<&Elem>
        ensures { MatchOption result (is_chars self.now ≡ true) (λ elem. self.now ≡ Child elem.now) }
    {
        match self {
            Part::Child(elem) => Some(elem.get()),
            Part::Chars(_) => None,
        }
    }

    /// The text that the part is, or `None` where it is a child element.
    pub fn text(&self) -> Option<&Text>
        ensures { MatchOption result (is_chars self.now ≡ false) (λ text. self.now ≡ Chars text.now) }
    {
        match self {
            Part::Child(_) => None,
            Part::Chars(text) => Some(text),
        }
    }
}

/// A whole message: its root element.
#[derive(PartialEq, Eq, Drop)]
pub struct Tree {
    /// The root element.
    pub root: Elem,
}

/// Why bytes are no message.
#[derive(Clone, Copy, PartialEq, Eq, Debug)]
pub enum Why {
    /// The bytes are not UTF-8.
    NotUtf8,
    /// The bytes break a rule of XML 1.0 or of Namespaces in XML 1.0.
    NotWellFormed,
    /// A prefix stands for no namespace.
    UnboundPrefix,
    /// The message has a document type declaration.
    Doctype,
    /// More than 64 elements stand inside one another.
    Depth,
}

impl Copies for Elem {
    fn copy(&self) -> Result<Elem, Memory> {
        copy_elem(self)
    }
}

#[cycle(copy)]
fn copy_elem(elem: &Elem) -> Result<Elem, Memory>
    ensures { IfOk result (λ it. it ≡ elem.now) }
{
    let name = elem.name.copy()?;
    let bounds = elem.bounds.copy()?;
    let attrs = elem.attrs.copy()?;
    let mut parts = Many::new(elem.parts.alloc());
    for part in elem.parts.as_slice() {
        parts.push(copy_part(part)?)?;
    }
    Ok(Elem {
        name,
        bounds,
        attrs,
        parts,
    })
}

#[cycle(copy)]
fn copy_part(part: &Part) -> Result<Part, Memory>
    ensures { IfOk result (λ it. it ≡ part.now) }
{
    match part {
        Part::Child(elem) => Ok(Part::Child(Boxed::new(elem.alloc(), copy_elem(elem.get())?)?)),
        Part::Chars(text) => Ok(Part::Chars(text.copy()?)),
    }
}

//! Elements whose end tag is still to come.
ghost use Rattle.std.specs.Prelude.{◌≡◌, ◌++◌, IfOk, OnOk};
ghost use Rattle.nc_message.specs.Spells as spells;
ghost use Rattle.nc_message_read.specs.inner.Opened as opened;

use crate::scope::Scope;
use crate::written::Name;
use nc_message::{Attr, Elem, Part};
use nc_names::{Boxed, Many, Memory, QName, Text};

/// An element whose end tag is still to come: the prefix of its name, the element so far, and the
/// text since its last child.
#[derive(Drop)]
pub(crate) struct Open {
    pub(crate) prefix: Text,
    pub(crate) name: QName,
    pub(crate) bounds: Scope,
    pub(crate) attrs: Many<Attr>,
    pub(crate) parts: Many<Part>,
    pub(crate) text: Text,
}

impl Open {
    /// Whether an end tag has the name of its start tag.
    pub(crate) fn ends(&self, name: &Name<'_>) -> bool
        ensures { result ≡ opened.ends self.now name.now }
    {
        self.prefix.as_str() == name.prefix.chars && self.name.name.as_str() == name.local.chars
    }

    /// The element, at its end.
    pub(crate) fn close(self) -> Result<Elem, Memory>
        ensures { IfOk result (λ it. it ≡ opened.elem_of self) }
    {
        let Open {
            prefix: _,
            name,
            bounds,
            attrs,
            mut parts,
            text,
        } = self;
        push_text(&mut parts, text)?;
        Ok(Elem {
            name,
            bounds: bounds.into_bounds(),
            attrs,
            parts,
        })
    }

    /// Puts a child after what stands in it.
    pub(crate) fn add_child(self, child: Elem) -> Result<Open, Memory>
        ensures { IfOk result (λ it. it ≡ opened.with_child self child) }
    {
        let Open {
            prefix,
            name,
            bounds,
            attrs,
            mut parts,
            text,
        } = self;
        let alloc = parts.alloc();
        push_text(&mut parts, text)?;
        parts.push(Part::Child(Boxed::new(alloc, child)?))?;
        Ok(Open {
            prefix,
            name,
            bounds,
            attrs,
            parts,
            text: Text::new(alloc),
        })
    }

    /// Puts text after what stands in it.
    pub(crate) fn add_text(self, more: Text) -> Result<Open, Memory>
        ensures { IfOk result (λ it. it ≡ opened.with_text self more) }
    {
        let Open {
            prefix,
            name,
            bounds,
            attrs,
            parts,
            text,
        } = self;
        Ok(Open {
            prefix,
            name,
            bounds,
            attrs,
            parts,
            text: joined(text, more)?,
        })
    }
}

/// Text after text. The first is not copied: most elements have one.
#[tactic(auto, using(crate::proofs::Goes::first_text))]
fn joined(text: Text, more: Text) -> Result<Text, Memory>
    ensures { IfOk result (λ it. it ≡ text ++ more) }
{
    if text.is_empty() {
        return Ok(more);
    }
    let mut text = text;
    text.push_str(more.as_str())?;
    Ok(text)
}

/// Puts text at the end of content, where there is any.
fn push_text(parts: &mut Many<Part>, text: Text) -> Result<(), Memory>
    ensures { OnOk result (parts.new ≡ parts.old ++ spells.chars_of text) }
{
    if !text.is_empty() {
        parts.push(Part::Chars(text))?;
    }
    Ok(())
}

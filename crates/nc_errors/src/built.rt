//! Elements of replies.
ghost use Rattle.std.specs.Prelude.{◌≡◌, [], ◌∷◌, ◌++◌, IfOk};
ghost use Rattle.nc_message.specs.declared.tree.Part.TheVariants.{Child};
ghost use Rattle.nc_protocol.specs.Content as content;
ghost use Rattle.nc_protocol.specs.Reply as reply;

use nc_message::{Bounds, Elem, Part};
use nc_names::{Boxed, Many, Memory, QName, Text};
use nc_protocol::request_words as words;
use std::alloc::Global;

/// An element without attributes, as a part.
pub(crate) fn element(
    alloc: Global,
    space: &str,
    name: &str,
    parts: Many<Part>,
) -> Result<Part, Memory>
    ensures { IfOk result (λ it. it
        ≡ Child (content.made_element (record { space = space.now; name = name.now }) parts)) }
{
    let elem = Elem {
        name: QName {
            space: Text::from_text(alloc, space)?,
            name: Text::from_text(alloc, name)?,
        },
        bounds: Bounds::new(),
        attrs: Many::new(alloc),
        parts,
    };
    Ok(Part::Child(Boxed::new(alloc, elem)?))
}

/// An element of the base namespace, as a part.
pub(crate) fn base_part(alloc: Global, name: &str, parts: Many<Part>) -> Result<Part, Memory>
    ensures { IfOk result (λ it. it ≡ reply.base_part name.now parts) }
{
    element(alloc, words::base_namespace(), name, parts)
}

/// A text as content.
pub(crate) fn text_parts(alloc: Global, text: &str) -> Result<Many<Part>, Memory>
    ensures { IfOk result (λ it. it ≡ content.text_parts text.now) }
{
    let mut parts = Many::new(alloc);
    if !text.is_empty() {
        parts.push(Part::Chars(Text::from_text(alloc, text)?))?;
    }
    Ok(parts)
}

/// An element round a text, as a part.
pub(crate) fn text_part(alloc: Global, space: &str, name: &str, text: &str) -> Result<Part, Memory>
    ensures { IfOk result (λ it. it
        ≡ content.text_part (record { space = space.now; name = name.now }) text.now) }
{
    element(alloc, space, name, text_parts(alloc, text)?)
}

/// An element of the base namespace round a text, as a part.
pub(crate) fn base_text(alloc: Global, name: &str, text: &str) -> Result<Part, Memory>
    ensures { IfOk result (λ it. it ≡ content.text_part (content.base_name name.now) text.now) }
{
    text_part(alloc, words::base_namespace(), name, text)
}

//! The texts of content match nodes and of leafs (RFC 6241 6.2.5).
ghost use Rattle.std.specs.Prelude.{◌≡◌, IfOk};
ghost use Rattle.nc_protocol.specs.Elements as elements;

use nc_message::Part;
use nc_names::{Memory, Text};
use std::alloc::Global;

/// The text that a part is; none at a child element.
pub(crate) fn text_of(part: &Part) -> &str
    ensures { result.now ≡ elements.text_of part.now }
{
    match part.text() {
        Some(text) => text.as_str(),
        None => "",
    }
}

/// The text of an element's content without its child elements.
pub(crate) fn whole_text(alloc: Global, parts: &[Part]) -> Result<Text, Memory>
    ensures { IfOk result (λ it. it ≡ elements.whole_text parts.now) }
{
    let mut text = Text::new(alloc);
    for part in parts {
        text.push_str(text_of(part))?;
    }
    Ok(text)
}

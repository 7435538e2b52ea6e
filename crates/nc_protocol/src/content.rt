//! What an element holds: child elements and text.
ghost use Rattle.std.specs.Prelude.{◌≡◌, not, IfOk};
ghost use Rattle.std.specs.List.{list_any};
ghost use Rattle.std.specs.Option.{option_copied};
ghost use Rattle.nc_names.specs.Signs as signs;
ghost use Rattle.nc_protocol.specs.Elements as elements;

use nc_message::{Elem, Part};
use nc_names::{Memory, Text, is_white};
use std::alloc::Global;

/// The child element that a part is, or `None` where it is text.
pub fn child_of(part: &Part) -> Option<&Elem>
    ensures { option_copied result ≡ elements.elem_of part.now }
{
    part.child()
}

/// The text that a part is, or the empty text where it is a child element.
pub fn text_of(part: &Part) -> &str
    ensures { result.now ≡ elements.text_of part.now }
{
    match part.text() {
        Some(text) => text.as_str(),
        None => "",
    }
}

/// Whether a part is a child element.
pub fn is_child(part: &Part) -> bool
    ensures { result ≡ elements.is_child part.now }
{
    match part.text() {
        Some(_) => false,
        None => true,
    }
}

/// Whether there is a child element.
pub fn has_child(parts: &[Part]) -> bool
    ensures { result ≡ elements.has_child parts.now }
{
    parts.iter().any(|part| is_child(part))
}

// Whether a part has a sign that is not white space.
fn is_dark(part: &Part) -> bool
    ensures { result ≡ list_any (λ sign. not (signs.is_white sign)) (elements.text_of part.now) }
{
    text_of(part).as_bytes().iter().any(|byte| !is_white(*byte))
}

/// Whether there is text that is not white space.
pub fn has_text(parts: &[Part]) -> bool
    ensures { result ≡ elements.has_text parts.now }
{
    parts.iter().any(|part| is_dark(part))
}

/// The text, without that of child elements. Want of memory alone is an error.
pub fn whole_text(alloc: Global, parts: &[Part]) -> Result<Text, Memory>
    ensures { IfOk result (λ it. it ≡ elements.whole_text parts.now) }
{
    let mut text = Text::new(alloc);
    for part in parts {
        text.push_str(text_of(part))?;
    }
    Ok(text)
}

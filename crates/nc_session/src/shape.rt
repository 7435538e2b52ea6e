//! The shape of elements of NETCONF's own: names, and content (RFC 6241 3.1).
ghost use Rattle.std.specs.Prelude.{◌≡◌, ◌≢◌, [], ◌∷◌, filter, MatchOption};
ghost use Rattle.std.specs.Option.{option_copied};
ghost use Rattle.nc_message.specs.declared.tree.Part.{Part};
ghost use Rattle.nc_session.specs.Shape as shape;

use nc_message::{Elem, Part};
use nc_protocol::request_words;

/// Whether an element is one of this name in the base namespace.
pub(crate) fn is_base(elem: &Elem, name: &str) -> bool
    ensures { result ≡ shape.is_base name.now elem.now }
{
    elem.name.space.as_str() == request_words::base_namespace() && elem.name.name.as_str() == name
}

/// Whether a part is an element of this name in the base namespace.
pub(crate) fn is_named(part: &Part, name: &str) -> bool
    ensures { result ≡ shape.is_named name.now part.now }
{
    match part {
        Part::Child(elem) => is_base(elem.get(), name),
        Part::Chars(_) => false,
    }
}

// The one part that is an element of this name in the base namespace.
fn only_part<'a>(parts: &'a [Part], name: &str) -> Option<&'a Part>
    ensures { MatchOption result
        ((part : Part) → filter (shape.is_named name.now) parts.now ≢ part ∷ [])
        (λ part. filter (shape.is_named name.now) parts.now ≡ part.now ∷ []) }
{
    let mut only = None;
    for part in parts {
        if !is_named(part, name) {
            continue;
        }
        if only.is_some() {
            return None;
        }
        only = Some(part);
    }
    only
}

fn elem_of(part: &Part) -> Option<&Elem>
    ensures { option_copied result ≡ shape.elem_of part.now }
{
    match part {
        Part::Child(elem) => Some(elem.get()),
        Part::Chars(_) => None,
    }
}

/// The one child of an element that has this name in the base namespace.
pub(crate) fn only_named<'a>(elem: &'a Elem, name: &str) -> Option<&'a Elem>
    ensures { option_copied result ≡ shape.only_named name.now elem.now }
{
    let Some(part) = only_part(elem.parts.as_slice(), name) else {
        return None;
    };
    elem_of(part)
}

/// The text that is all the content of an element.
pub(crate) fn text_of(parts: &[Part]) -> Option<&str>
    ensures { option_copied result ≡ shape.text_of parts.now }
{
    match parts {
        [] => Some(""),
        [Part::Chars(text)] => Some(text.as_str()),
        _ => None,
    }
}

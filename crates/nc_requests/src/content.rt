//! The child elements of an element.
ghost use Rattle.std.specs.Prelude.{◌≡◌, ◌++◌, option_to_list, IfOk};
ghost use Rattle.std.specs.Option.{option_copied};
ghost use Rattle.nc_protocol.specs.Asking as asking;
ghost use Rattle.nc_protocol.specs.Content as content;
ghost use Rattle.nc_protocol.specs.Elements as elements;

use nc_message::{Elem, Part};
use nc_names::{Many, Memory};
use nc_protocol::content::{child_of, has_text};

// The child element that a part is, moved out of it.
#[tactic(auto, using(nc_protocol::proofs::ContentLemmas::elem_of_child))]
fn into_child(part: Part) -> Option<Elem>
    ensures { result ≡ elements.elem_of part }
{
    match part {
        Part::Child(elem) => Some(elem.into_inner()),
        Part::Chars(_) => None,
    }
}

// Adds the child element that a part is, if it is one.
fn push_child(part: Part, elems: &mut Many<Elem>) -> Result<(), Memory>
    ensures { IfOk result (λ _. elems.new ≡ elems.old ++ option_to_list (elements.elem_of part)) }
{
    if let Some(elem) = into_child(part) {
        elems.push(elem)?;
    }
    Ok(())
}

/// The child elements, moved out of the parts.
#[tactic(auto, using(crate::proofs::ContentLemmas::children_push))]
pub(crate) fn children(parts: Many<Part>) -> Result<Many<Elem>, Memory>
    ensures { IfOk result (λ it. it ≡ content.children parts) }
{
    let mut elems = Many::new(parts.alloc());
    for part in parts.into_vec() {
        push_child(part, &mut elems)?;
    }
    Ok(elems)
}

/// The one element, moved out of the list; none where there are several.
#[tactic(auto, using(crate::proofs::ContentLemmas::only_none, crate::proofs::ContentLemmas::only_some))]
pub(crate) fn only_of(elems: Many<Elem>) -> Option<Elem>
    ensures { result ≡ asking.only elems }
{
    if elems.len() != 1 {
        return None;
    }
    let mut elems = elems;
    elems.pop()
}

// The one child element; none where there are several.
fn only(parts: &[Part]) -> Option<&Elem>
    ensures { option_copied result ≡ asking.only (content.children parts.now) }
{
    let mut found = None;
    for part in parts {
        if let Some(elem) = child_of(part) {
            if found.is_some() {
                return None;
            }
            found = Some(elem);
        }
    }
    found
}

/// The element that is all the content but for white space.
pub(crate) fn only_child(elem: &Elem) -> Option<&Elem>
    ensures { option_copied result ≡ asking.only_child elem.now }
{
    if has_text(elem.parts.as_slice()) {
        return None;
    }
    only(elem.parts.as_slice())
}

//! What stands at the levels of some elements (RFC 6241 6.2).
ghost use Rattle.std.specs.Prelude.{◌≡◌, ◌++◌, ◌&&◌, [], not, IfOk, OnOk, map};
ghost use Rattle.std.specs.List.{list_any, list_all, filter, filter_map, flat_map};
ghost use Rattle.nc_protocol.specs.Elements as elements;
ghost use Rattle.nc_protocol.specs.Filter as meant;
ghost use Rattle.nc_filter.specs.inner.Levels as levels;
ghost use Rattle.nc_filter.specs.inner.Picks as picks;

use crate::element::{child, is_containment, is_content_match};
use nc_message::{Elem, Part};
use nc_names::{Many, Memory};
use std::alloc::Global;

fn is_part_match(part: &Part) -> bool
    ensures { result ≡ levels.is_part_match part.now }
{
    match child(part) {
        Some(elem) => is_content_match(elem),
        None => true,
    }
}

fn has_element(parts: &Many<Part>) -> bool
    ensures { result ≡ list_any levels.is_element parts.now }
{
    parts.as_slice().iter().any(|part| is_element(part))
}

fn is_element(part: &Part) -> bool
    ensures { result ≡ levels.is_element part.now }
{
    child(part).is_some()
}

fn are_matches(parts: &Many<Part>) -> bool
    ensures { result ≡ list_all levels.is_part_match parts.now }
{
    parts.as_slice().iter().all(|part| is_part_match(part))
}

/// Whether nothing but content matches stands at a level that has elements.
#[tactic(auto, using(crate::proofs::LevelLemmas::level_of_matches))]
pub(crate) fn is_of_matches(parts: &Many<Part>) -> bool
    ensures { result ≡ meant.is_of_matches (filter_map elements.elem_of parts.now) }
{
    has_element(parts) && are_matches(parts)
}

/// Whether the level of one of the elements has nothing but content matches.
pub(crate) fn has_level_of_matches(elems: &[&Elem]) -> bool
    ensures { result ≡ list_any (λ elem. meant.is_of_matches (meant.level_of elem))
        (map (λ elem. elem.now) elems.now) }
{
    for elem in elems {
        if is_of_matches(&elem.parts) {
            return true;
        }
    }
    false
}

fn is_free(part: &Part) -> bool
    ensures { result ≡ levels.is_free part.now }
{
    match child(part) {
        Some(elem) => !is_content_match(elem),
        None => true,
    }
}

// Whether no content match stands at the level of an element.
fn is_plain(elem: &Elem) -> bool
    ensures { result ≡ picks.is_plain elem.now }
{
    elem.parts.as_slice().iter().all(|part| is_free(part))
}

fn is_guarded(elem: &Elem) -> bool
    ensures { result ≡ picks.is_guarded elem.now }
{
    !is_plain(elem)
}

/// Whether a content match stands at the level of one of the elements.
pub(crate) fn has_match(elems: &[&Elem]) -> bool
    ensures { result ≡ list_any picks.is_guarded (map (λ elem. elem.now) elems.now) }
{
    for elem in elems {
        if is_guarded(elem) {
            return true;
        }
    }
    false
}

/// Adds the elements of a level.
pub(crate) fn push_level<'a>(
    elems: &mut Many<&'a Elem>,
    parts: &'a Many<Part>,
) -> Result<(), Memory>
    ensures { OnOk result (map (λ elem. elem.now) elems.new
        ≡ map (λ elem. elem.now) elems.old ++ filter_map elements.elem_of parts.now) }
{
    for part in parts.as_slice() {
        if let Some(elem) = child(part) {
            elems.push(elem)?;
        }
    }
    Ok(())
}

/// The levels of some elements, joined.
pub(crate) fn levels_of<'a>(alloc: Global, elems: &[&'a Elem]) -> Result<Many<&'a Elem>, Memory>
    ensures { IfOk result (λ it. map (λ elem. elem.now) it
        ≡ flat_map meant.level_of (map (λ elem. elem.now) elems.now)) }
{
    let mut out = Many::new(alloc);
    for elem in elems {
        push_level(&mut out, &elem.parts)?;
    }
    Ok(out)
}

fn is_selection(elem: &Elem) -> bool
    ensures { result ≡ picks.is_selection elem.now }
{
    !is_content_match(elem) && !is_containment(elem)
}

/// Whether a selection node is among some elements (RFC 6241 6.2.4).
pub(crate) fn has_selection(elems: &[&Elem]) -> bool
    ensures { result ≡ list_any picks.is_selection (map (λ elem. elem.now) elems.now) }
{
    for elem in elems {
        if is_selection(elem) {
            return true;
        }
    }
    false
}

/// The containment nodes among some elements (RFC 6241 6.2.3).
pub(crate) fn containments<'a>(alloc: Global, elems: &[&'a Elem]) -> Result<Many<&'a Elem>, Memory>
    ensures { IfOk result (λ it. map (λ elem. elem.now) it
        ≡ filter meant.is_containment (map (λ elem. elem.now) elems.now)) }
{
    let mut out = Many::new(alloc);
    for elem in elems {
        if is_containment(elem) {
            out.push(*elem)?;
        }
    }
    Ok(out)
}

//! Rows that content matches meet, by their texts (RFC 6241 6.2.5).
ghost use Rattle.std.specs.Prelude.{◌≡◌, ◌+◌, ◌<◌, ◌^◌, ◌∷◌, ◌++◌, List, [], false, IfOk, map};
ghost use Rattle.std.specs.List.{list_any};
ghost use Rattle.std.specs.Option.{option_map_or};
ghost use Rattle.nc_names.specs.Ends as ends;
ghost use Rattle.nc_message.specs.declared.tree.Elem.{Elem};
ghost use Rattle.nc_protocol.specs.Elements as elements;
ghost use Rattle.nc_filter.specs.inner.Picks as picks;
ghost use Rattle.nc_filter.specs.inner.Tables.{HasTexts, has_text, adds_text};

use crate::element::is_content_match;
use crate::rows::{ends, push_if};
use crate::text::whole_text;
use nc_message::Elem;
use nc_names::{Many, Memory, Row, Text, trimmed_bytes};
use std::alloc::Global;
use std::collections::BTreeSet;

/// A copy of some bytes.
pub(crate) fn bytes_of(alloc: Global, bytes: &[u8]) -> Result<Many<u8>, Memory>
    ensures { IfOk result (λ it. it ≡ bytes.now) }
{
    Ok(Many::from_vec(Vec::from_slice(alloc, bytes)?))
}

fn trimmed_text(alloc: Global, text: &Text) -> Result<Many<u8>, Memory>
    ensures { IfOk result (λ it. it ≡ ends.trimmed text.now) }
{
    bytes_of(alloc, trimmed_bytes(text.as_str().as_bytes()))
}

/// The text of an element's content, without white space at both ends.
pub(crate) fn elem_text(alloc: Global, elem: &Elem) -> Result<Many<u8>, Memory>
    ensures { IfOk result (λ it. it ≡ ends.trimmed (elements.whole_text elem.now.parts)) }
{
    let text = whole_text(alloc, elem.parts.as_slice())?;
    trimmed_text(alloc, &text)
}

/// A set with one text more.
pub(crate) fn with_text(
    items: BTreeSet<Many<u8>>,
    text: Many<u8>,
) -> Result<BTreeSet<Many<u8>>, Memory>
    ensures { IfOk result (λ it. adds_text items it text) }
{
    let mut items = items;
    items.insert(text)?;
    Ok(items)
}

#[tactic(auto, using(crate::proofs::TableLemmas::match_added, crate::proofs::TableLemmas::other_added))]
fn with_match(
    alloc: Global,
    items: BTreeSet<Many<u8>>,
    elem: &Elem,
) -> Result<BTreeSet<Many<u8>>, Memory>
    ensures { IfOk result (λ it. (elems : List Elem) → HasTexts items elems →
        HasTexts it (elems ++ elem.now ∷ [])) }
{
    if !is_content_match(elem) {
        return Ok(items);
    }
    with_text(items, elem_text(alloc, elem)?)
}

// The texts of the content matches among some elements.
fn texts(alloc: Global, elems: &[&Elem]) -> Result<BTreeSet<Many<u8>>, Memory>
    ensures { IfOk result (λ it. HasTexts it (map (λ elem. elem.now) elems.now)) }
{
    let mut items = BTreeSet::new(alloc);
    for elem in elems {
        items = with_match(alloc, items, elem)?;
    }
    Ok(items)
}

// Whether a row has one of these texts.
fn has_text_of(alloc: Global, items: &BTreeSet<Many<u8>>, row: &Row) -> Result<bool, Memory>
    ensures { IfOk result (λ it. it
        ≡ option_map_or (λ value. has_text items.now (ends.trimmed value)) row.now.value false) }
{
    match &row.value {
        Some(value) => Ok(items.contains(&trimmed_text(alloc, value)?)),
        None => Ok(false),
    }
}

fn is_matched(
    alloc: Global,
    items: &BTreeSet<Many<u8>>,
    depth: usize,
    row: &Row,
) -> Result<bool, Memory>
    requires { depth + 1 < 2 ^ 64 }
    ensures { IfOk result (λ it. (elems : List Elem) → HasTexts items.now elems →
        it ≡ picks.is_matched elems depth row.now) }
{
    if !ends(depth, row) {
        return Ok(false);
    }
    Ok(has_text_of(alloc, items, row)?)
}

/// Adds the rows that stand at a depth and have the text of one of the content matches among some elements.
pub(crate) fn matched<'a>(
    alloc: Global,
    depth: usize,
    elems: &[&Elem],
    rows: &[&'a Row],
    out: Many<&'a Row>,
) -> Result<Many<&'a Row>, Memory>
    requires { depth + 1 < 2 ^ 64 }
    ensures { IfOk result (λ it. picks.Adds (map (λ row. row.now) out.entry) (map (λ row. row.now) it)
        (picks.is_matched (map (λ elem. elem.now) elems.now) depth) (map (λ row. row.now) rows.now)) }
{
    let items = texts(alloc, elems)?;
    let mut out = out;
    for row in rows {
        let passes = is_matched(alloc, &items, depth, row)?;
        out = push_if(out, passes, row)?;
    }
    Ok(out)
}

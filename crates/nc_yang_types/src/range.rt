//! The parts of ranges and lengths (RFC 7950 9.2.4, 9.4.4).
ghost use Rattle.std.specs.Prelude.{◌≡◌, ◌==◌, ◌∷◌, IfOk, option_copied};
ghost use Rattle.std.specs.List.{list_all, slice_split};
ghost use Rattle.nc_names.specs.Signs.{bar};
ghost use Rattle.nc_yang_statements.specs.Arguments as arguments;
ghost use Rattle.nc_yang_types.specs.Ranges as ranges;
ghost use Rattle.nc_yang_types.specs.inner.Cuts.{SplitsAt, SplitsAtDots, parts_left};

use crate::bound::{Counted, bound};
use crate::inside::{all_lie_in, are_ascending, merged};
use nc_names::{Many, Memory, is_white, trimmed};
use nc_schema::Between;
use std::alloc::Global;

// What stands before the first bar, and after it.
fn split_bar(text: &str) -> Option<(&str, &str)>
    ensures { SplitsAt bar text.now result }
{
    text.split_once('|')
}

// What stands before the next bar, and the text after it, where there is one.
fn next_part(text: &str) -> (&str, Option<&str>)
    ensures { slice_split (λ c. c == bar) text.now ≡ result.0.now ∷ parts_left (option_copied result.1) }
{
    match split_bar(text) {
        Some((part, rest)) => (part, Some(rest)),
        None => (text, None),
    }
}

// What stands before the first `..`, and after it.
fn split_dots(text: &str) -> Option<(&str, &str)>
    ensures { SplitsAtDots text.now result }
{
    text.split_once("..")
}

// The numbers from one bound to another.
fn from_to(
    alloc: Global,
    counted: Counted,
    whole: Between,
    low: &str,
    high: &str,
) -> Result<Option<Between>, Memory>
    ensures { IfOk result (λ it. it ≡ ranges.from_to counted whole low.now high.now) }
{
    let Some(least) = bound(alloc, counted, whole, trimmed(low))? else {
        return Ok(None);
    };
    let Some(most) = bound(alloc, counted, whole, trimmed(high))? else {
        return Ok(None);
    };
    Ok(Some(Between { least, most }))
}

// A part.
fn part_of(
    alloc: Global,
    counted: Counted,
    whole: Between,
    text: &str,
) -> Result<Option<Between>, Memory>
    ensures { IfOk result (λ it. it ≡ ranges.part_of counted whole text.now) }
{
    match split_dots(text) {
        Some((low, high)) => from_to(alloc, counted, whole, low, high),
        None => from_to(alloc, counted, whole, text, text),
    }
}

// The parts between bars.
fn parts_of(
    alloc: Global,
    counted: Counted,
    whole: Between,
    text: &str,
) -> Result<Option<Many<Between>>, Memory>
    ensures { IfOk result (λ it. it ≡ ranges.parts_of counted whole (slice_split (λ c. c == bar) text.now)) }
{
    let mut parts = Many::new(alloc);
    let mut left = Some(text);
    while let Some(rest) = left {
        let (written, more) = next_part(rest);
        let Some(part) = part_of(alloc, counted, whole, written)? else {
            return Ok(None);
        };
        parts.push(part)?;
        left = more;
    }
    Ok(Some(parts))
}

// The highest number of the last part.
fn highest(first: Between, rest: &[Between]) -> i128
    ensures { result ≡ ranges.highest first rest.now }
{
    let mut last = first;
    for part in rest {
        last = *part;
    }
    last.most
}

// The numbers from one to another.
fn between(least: i128, most: i128) -> Between
    ensures { result ≡ record { least = least; most = most } }
{
    Between { least, most }
}

// From the lowest number of the parts to the highest.
fn whole_of(parts: &[Between]) -> Option<Between>
    ensures { result ≡ ranges.whole_of parts.now }
{
    let (first, rest) = parts.split_first()?;
    Some(between(first.least, highest(*first, rest)))
}

// Whether a character that is not white space stands in that place.
fn is_visible_at(text: &[u8], place: usize) -> bool
    ensures { result ≡ arguments.is_visible_at text.now place }
{
    match text.get(place) {
        Some(byte) => !is_white(*byte),
        None => false,
    }
}

// Whether no white space stands at the ends.
fn is_tight(text: &[u8]) -> bool
    ensures { result ≡ ranges.is_tight text.now }
{
    is_visible_at(text, 0) && is_visible_at(text, text.len().saturating_sub(1))
}

// Whether the parts may stand in a type over a base, of which adjoining parts are one.
fn are_parts(alloc: Global, base: &[Between], parts: &[Between]) -> Result<bool, Memory>
    ensures { IfOk result (λ it. it ≡ ranges.are_parts base.now parts.now) }
{
    let whole = merged(alloc, base)?;
    Ok(are_ascending(parts) && all_lie_in(whole.as_slice(), parts))
}

/// The numbers that the text of a `range` or a `length` leaves of those of the base; `None` where it is
/// none that may stand over this base (RFC 7950 9.2.4, 9.3.4, 9.4.4).
pub fn restriction(
    alloc: Global,
    counted: Counted,
    base: &[Between],
    text: &str,
) -> Result<Option<Many<Between>>, Memory>
    ensures { IfOk result (λ it. it ≡ ranges.restriction counted base.now text.now) }
{
    let Some(whole) = whole_of(base) else {
        return Ok(None);
    };
    let Some(parts) = parts_of(alloc, counted, whole, text)? else {
        return Ok(None);
    };
    if !is_tight(text.as_bytes()) {
        return Ok(None);
    }
    if are_parts(alloc, base, parts.as_slice())? {
        Ok(Some(parts))
    } else {
        Ok(None)
    }
}

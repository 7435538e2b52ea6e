//! Whether parts lie in those of a base (RFC 7950 9.2.4).
ghost use Rattle.std.specs.Prelude.{◌≡◌, IfOk};
ghost use Rattle.std.specs.List.{list_all};
ghost use Rattle.nc_yang_types.specs.Ranges as ranges;
ghost use Rattle.nc_yang_types.specs.inner.Walks as walks;

use nc_names::{Many, Memory};
use nc_schema::Between;
use std::alloc::Global;

/// Whether each number of a part is lower than those of the next, and no part is empty.
pub(crate) fn are_ascending(parts: &[Between]) -> bool
    ensures { result ≡ ranges.are_ascending parts.now }
{
    let Some((first, rest)) = parts.split_first() else {
        return true;
    };
    let mut last = *first;
    for part in rest {
        if last.least > last.most || last.most >= part.least {
            return false;
        }
        last = *part;
    }
    last.least <= last.most
}

// Whether the next part begins right after this.
fn adjoins(part: Between, next: Between) -> bool
    ensures { result ≡ ranges.adjoins part next }
{
    part.most < next.least && next.least - 1 == part.most
}

/// The parts, of which those that adjoin are one.
pub(crate) fn merged(alloc: Global, parts: &[Between]) -> Result<Many<Between>, Memory>
    ensures { IfOk result (λ it. it ≡ ranges.merged parts.now) }
{
    let mut merged = Many::new(alloc);
    let Some((first, rest)) = parts.split_first() else {
        return Ok(merged);
    };
    let mut last = *first;
    for next in rest {
        if adjoins(last, *next) {
            last.most = next.most;
        } else {
            merged.push(last)?;
            last = *next;
        }
    }
    merged.push(last)?;
    Ok(merged)
}

// Whether the second holds all numbers of the first.
fn holds(part: &Between, over: &Between) -> bool
    ensures { result ≡ ranges.holds part.now over.now }
{
    over.least <= part.least && part.most <= over.most
}

// Whether one part of the base holds the part.
fn lies_in(base: &[Between], part: &Between) -> bool
    ensures { result ≡ ranges.lies_in base.now part.now }
{
    base.iter().any(|over| holds(part, over))
}

// Whether each part lies in one of the base, which may stand in any order.
fn each_lies_in(base: &[Between], parts: &[Between]) -> bool
    ensures { result ≡ list_all (ranges.lies_in base.now) parts.now }
{
    parts.iter().all(|part| lies_in(base, part))
}

// Whether the parts lie along the base.
fn lie_along(base: &[Between], parts: &[Between]) -> bool
    ensures { result ≡ walks.lie_along base.now parts.now }
{
    let mut left = base;
    let mut parts = parts;
    while let Some((part, more)) = parts.split_first() {
        let Some((over, rest)) = left.split_first() else {
            return false;
        };
        if holds(part, over) {
            parts = more;
        } else {
            left = rest;
        }
    }
    true
}

/// Whether each part lies in one of the base. Where both ascend, as they do in types, each is passed once.
#[tactic(auto, using(crate::proofs::InsideLemmas::along))]
pub(crate) fn all_lie_in(base: &[Between], parts: &[Between]) -> bool
    ensures { result ≡ list_all (ranges.lies_in base.now) parts.now }
{
    if are_ascending(base) && are_ascending(parts) {
        lie_along(base, parts)
    } else {
        each_lies_in(base, parts)
    }
}

//! Definitions in an order in which each comes after those that it names, or a circle among them.
ghost use Rattle.std.specs.Prelude.{◌≡◌, ◌<◌, ◌^◌, Some, MatchOption, IfOk, IsSome, length};
ghost use Rattle.std.specs.List.{filter};
ghost use Rattle.nc_yang_scopes.specs.Loops.{BreaksLoop, BreaksLoops, KeepsLoops};
ghost use Rattle.nc_yang_scopes.specs.Orders.{Arranges};
ghost use Rattle.nc_yang_scopes.specs.References.{fault_of};
ghost use Rattle.nc_yang_scopes.specs.inner.Links as words;

use crate::kinds::{Defined, all_defined};
use crate::links::all_links;
use crate::marks::{is_marked, marks};
use crate::references::{Link, circle_fault, graph};
use crate::{Scopes, TextFault};
use nc_names::{Many, Memory};
use nc_yang_order::{Ordered, targets_first};
use std::alloc::Global;

/// What is found among definitions of one sort.
#[derive(Drop)]
pub enum Arranged {
    /// The numbers of all of them, each once and after those that it names.
    Order(Many<u32>),
    /// A statement in one of them that names one which leads back to it.
    Circle(TextFault),
}

// Those of the numbers that are marked.
fn kept(alloc: Global, marks: &[bool], numbers: &[u32]) -> Result<Many<u32>, Memory>
    ensures { IfOk result (λ it. it ≡ filter (words.is_marked marks.now) numbers.now) }
{
    let mut kept = Many::new(alloc);
    for number in numbers {
        if is_marked(marks, *number as usize) {
            kept.push(*number)?;
        }
    }
    Ok(kept)
}

// The fault of the statement by which an edge leads on.
fn circle(scopes: &Scopes, links: &[Many<Link>], number: u32, place: usize) -> TextFault
    requires { IsSome (fault_of scopes.now links.now number place) }
    ensures { Some result ≡ fault_of scopes.now links.now number place }
{
    match circle_fault(scopes, links, number, place) {
        Some(fault) => fault,
        None => unreachable!(),
    }
}

// What is found in the graph of links.
fn found(
    alloc: Global,
    scopes: &Scopes,
    sort: Defined,
    marks: &[bool],
    links: &[Many<Link>],
) -> Result<Arranged, Memory>
    requires few { length scopes.now.located < 2 ^ 32 }
    requires marks { words.AreMarks scopes.now sort marks.now }
    requires links { words.AreAllLinks scopes.now sort marks.now links.now }
    ensures { IfOk result (Arranges scopes.now sort) }
{
    let graph = graph(alloc, links)?;
    match targets_first(alloc, graph.as_slice())? {
        Ordered::Order(order) => Ok(Arranged::Order(kept(alloc, marks, order.as_slice())?)),
        Ordered::Circle { from, place } => Ok(Arranged::Circle(circle(scopes, links, from, place))),
    }
}

/// The numbers of all definitions of a sort, each once and after those that it names, or a statement in one
/// of them that names one which leads back to it (RFC 7950 5.1, 7.3, 7.12, 7.18.2, 7.20.2). Time and memory
/// grow with the number of statements, and nothing recurses along what is named.
pub fn in_order(alloc: Global, scopes: &Scopes, sort: Defined) -> Result<Arranged, Memory>
    ensures { IfOk result (Arranges scopes.now sort) }
{
    if scopes.len() > u32::MAX as usize {
        return Err(Memory);
    }
    let marks = marks(alloc, scopes, sort)?;
    let links = all_links(alloc, scopes, sort, marks.as_slice())?;
    found(alloc, scopes, sort, marks.as_slice(), links.as_slice())
}

// The circle, if one was found.
fn circle_in(found: Arranged) -> Option<TextFault>
    ensures { result ≡ words.circle_in found }
{
    match found {
        Arranged::Order(_) => None,
        Arranged::Circle(circle) => Some(circle),
    }
}

// A circle among definitions of a sort.
#[tactic(auto, using(crate::proofs::Arranging::circle_judged))]
fn circle_of(alloc: Global, scopes: &Scopes, sort: Defined) -> Result<Option<TextFault>, Memory>
    ensures { IfOk result (words.Judges scopes.now.texts sort) }
{
    let found = in_order(alloc, scopes, sort)?;
    Ok(circle_in(found))
}

/// A statement that names a definition which leads back to the one in which it stands, or `None` where there
/// is none: an import, a type of a typedef, a `uses` in a grouping, a base of an identity or a condition of a
/// feature (RFC 7950 5.1, 7.3, 7.12, 7.18.2, 7.20.2).
pub fn first_loop(alloc: Global, scopes: &Scopes) -> Result<Option<TextFault>, Memory>
    ensures { IfOk result (λ it. MatchOption it (KeepsLoops scopes.now.texts)
        (λ found. BreaksLoops scopes.now.texts found.text found.fault)) }
{
    for sort in all_defined() {
        if let Some(found) = circle_of(alloc, scopes, *sort)? {
            return Ok(Some(found));
        }
    }
    Ok(None)
}

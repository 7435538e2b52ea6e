//! Edges from each identity to those that have it as a base.
ghost use Rattle.std.specs.Prelude.{List, IfOk};
ghost use Rattle.nc_yang_scopes.specs.Scopes.{Located};
ghost use Rattle.nc_yang_scopes.specs.Numbers.{AreNumbers, OnNumber};
ghost use Rattle.nc_yang_nodes.specs.inner.Edges.{Adds, AnyOf, FromNamed, IsGraph, ToIdentity};

use crate::places::Places;
use nc_names::{Many, Memory};
use nc_yang_order::{no_edges, with_edge};
use std::alloc::Global;

// With an edge from the identity that the `base` statement of a number names.
fn with_base(
    places: &Places,
    graph: Many<Many<usize>>,
    base: usize,
    to: usize,
) -> Result<Many<Many<usize>>, Memory>
    ensures { IfOk result (λ it. OnNumber places.now base (λ l.
        Adds (FromNamed places.now.texts to l) graph it)) }
{
    match places.named(base) {
        Some(from) if from < graph.len() => with_edge(graph, from, to),
        _ => Ok(graph),
    }
}

// With edges from those that several such statements name.
fn with_bases(
    places: &Places,
    graph: Many<Many<usize>>,
    bases: &[usize],
    to: usize,
) -> Result<Many<Many<usize>>, Memory>
    ensures { IfOk result (λ it. (ls : List Located) → AreNumbers places.now.located bases.now ls
        → Adds (AnyOf ls (FromNamed places.now.texts to)) graph it) }
{
    let mut graph = graph;
    for base in bases {
        graph = with_base(places, graph, *base, to)?;
    }
    Ok(graph)
}

// With edges from the bases of the identity of a number.
fn with_identity(
    alloc: Global,
    places: &Places,
    graph: Many<Many<usize>>,
    number: usize,
) -> Result<Many<Many<usize>>, Memory>
    ensures { IfOk result (λ it. OnNumber places.now number (λ l.
        Adds (ToIdentity places.now.texts l) graph it)) }
{
    match places.place(number) {
        Some(to) => {
            let bases = places.bases(alloc, number)?;
            with_bases(places, graph, bases.as_slice(), to)
        }
        None => Ok(graph),
    }
}

/// Edges from each identity of the texts to those that have it as a base, between their places.
pub(crate) fn edges(alloc: Global, places: &Places) -> Result<Many<Many<usize>>, Memory>
    ensures { IfOk result (IsGraph places.now.texts) }
{
    let list = places.list();
    let mut graph = no_edges(alloc, list.len())?;
    for number in list {
        graph = with_identity(alloc, places, graph, *number)?;
    }
    Ok(graph)
}

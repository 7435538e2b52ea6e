//! The types that rest on others, in an order in which each comes after the one on which it rests.
ghost use Rattle.std.specs.Prelude.{◌≡◌, length, IfOk};
ghost use Rattle.nc_yang_types.specs.inner.Footings.{AreDependents, AreStarts, dependent, started};

use crate::footing::Footing;
use nc_names::{Many, Memory};
use nc_yang_order::{no_edges, with_edge};
use std::alloc::Global;

// With an edge to the type of a number from the one on which it rests.
fn with_dependent(
    graph: Many<Many<usize>>,
    number: usize,
    footing: Footing,
) -> Result<Many<Many<usize>>, Memory>
    ensures { IfOk result (λ it. it ≡ dependent graph number footing) }
{
    match footing {
        Footing::OnType(base) if base < graph.len() => with_edge(graph, base, number),
        _ => Ok(graph),
    }
}

/// From each type edges to those that rest on it.
pub(crate) fn dependents(alloc: Global, footings: &[Footing]) -> Result<Many<Many<usize>>, Memory>
    ensures { IfOk result (AreDependents footings.now (length footings.now)) }
{
    let mut graph = no_edges(alloc, footings.len())?;
    for (number, footing) in footings.iter().enumerate() {
        graph = with_dependent(graph, number, *footing)?;
    }
    Ok(graph)
}

// With a number, if its type rests on a built-in type.
fn with_start(starts: Many<usize>, number: usize, footing: Footing) -> Result<Many<usize>, Memory>
    ensures { IfOk result (λ it. it ≡ started starts number footing) }
{
    let mut starts = starts;
    if let Footing::OnBuiltIn(_) = footing {
        starts.push(number)?;
    }
    Ok(starts)
}

/// The types that rest on built-in types.
pub(crate) fn starts(alloc: Global, footings: &[Footing]) -> Result<Many<usize>, Memory>
    ensures { IfOk result (AreStarts footings.now (length footings.now)) }
{
    let mut starts = Many::new(alloc);
    for (number, footing) in footings.iter().enumerate() {
        starts = with_start(starts, number, *footing)?;
    }
    Ok(starts)
}

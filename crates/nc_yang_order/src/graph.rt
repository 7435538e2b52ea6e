//! Edges between numbers, by the number from which they lead.
ghost use Rattle.std.specs.Prelude.{◌≡◌, ◌<◌, ◌∷◌, ◌++◌, [], replicate, length, slice_set, IfOk};
ghost use Rattle.nc_yang_order.specs.Orders.{targets};

use nc_names::{Many, Memory};
use std::alloc::Global;

/// So many numbers, from which no edge leads.
pub fn no_edges(alloc: Global, count: usize) -> Result<Many<Many<usize>>, Memory>
    ensures { IfOk result (λ it. it ≡ replicate count []) }
{
    let mut graph = Many::new(alloc);
    for number in 0..count {
        graph.push(Many::new(alloc))?;
    }
    Ok(graph)
}

/// With one edge more.
pub fn with_edge(
    graph: Many<Many<usize>>,
    from: usize,
    to: usize,
) -> Result<Many<Many<usize>>, Memory>
    requires { from < length graph }
    ensures { IfOk result (λ it. it ≡ slice_set graph from (targets graph from ++ to ∷ [])) }
{
    let mut rows = graph.into_vec();
    let row = &mut rows[from];
    row.push(to)?;
    Ok(Many::from_vec(rows))
}

/// The numbers to which edges lead from a number.
#[tactic(auto, using(std::proofs::lemmas::Option::slice_get_past))]
pub fn row(graph: &[Many<usize>], number: usize) -> &[usize]
    ensures { result.now ≡ targets graph.now number }
{
    match graph.get(number) {
        Some(row) => row.as_slice(),
        None => &[],
    }
}

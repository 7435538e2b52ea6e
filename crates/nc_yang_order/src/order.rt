//! Numbers in an order in which targets come first.
ghost use Rattle.std.specs.Prelude.{◌≡◌, ◌<◌, ◌^◌, nat_lt, length, IsTrue, IfOk};
ghost use Rattle.std.specs.List.{list_all};
ghost use Rattle.nc_yang_order.specs.Orders as orders;

use crate::search::Search;
use nc_names::{Many, Memory};
use std::alloc::Global;

/// What is found in a graph.
#[derive(Drop)]
pub enum Ordered {
    /// There is no circle: the numbers, each once and after all those to which it has an edge.
    Order(Many<u32>),
    /// An edge on a circle.
    Circle {
        /// The number from which it leads.
        from: u32,
        /// The place, among that number's targets, of the one to which it leads.
        place: usize,
    },
}

// Whether each number is below the count.
fn are_below(targets: &[u32], count: usize) -> bool
    ensures { result ≡ list_all (λ t. nat_lt t count) targets.now }
{
    targets.iter().all(|target| (*target as usize) < count)
}

/// Whether every edge leads to a number below the length of the graph.
pub fn is_within(graph: &[Many<u32>]) -> bool
    ensures { result ≡ orders.is_within graph.now }
{
    let count = graph.len();
    graph
        .iter()
        .all(|targets| are_below(targets.as_slice(), count))
}

/// Orders the numbers below the length of `graph`, where `graph` has for each number those to which it has an
/// edge; or finds an edge on a circle, as of groupings that use one another (RFC 7950 7.12, 7.13).
pub fn targets_first(alloc: Global, graph: &[Many<u32>]) -> Result<Ordered, Memory>
    requires within { IsTrue (orders.is_within graph.now) }
    requires few { length graph.now < 2 ^ 32 }
    ensures { IfOk result (orders.Answers graph.now) }
{
    let mut search = Search::new(alloc, graph.len())?;
    for number in 0..graph.len() {
        if let Some(circle) = search.visit(graph, number as u32)? {
            return Ok(circle);
        }
    }
    let Search { order, .. } = search;
    Ok(Ordered::Order(order))
}

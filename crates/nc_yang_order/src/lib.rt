//! An order of numbers in which each stands after those to which it has an edge.
//!
//! What modules define in terms of each other (typedefs, groupings, identities, features, imports, leafrefs)
//! may not lead back to itself (RFC 7950 5.1, 7.3, 7.12, 7.18.2, 7.20.2, 9.9.2). Each of these questions is
//! one graph of numbers, and one call answers it: `targets_first` gives such an order, or an edge on a
//! circle. By the law `order_has_no_circle` no graph has both. `Reach::of` promises the numbers to which
//! edges lead from some numbers.
//!
//! It stands on the plain types of nc_names. A call takes steps in proportion to the numbers and edges, and
//! does not recurse. The folders of cases/ test it.
#![tactic(auto)]

mod graph;
mod laws;
mod mark;
mod order;
mod reach;
mod search;

pub use graph::{no_edges, row, with_edge};
pub use laws::order_has_no_circle;
pub use order::{Ordered, is_within, targets_first};
pub use reach::Reach;

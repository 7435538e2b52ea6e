//! Values in use in a configuration (RFC 7950 7.6.1, 7.7.2), and its places: the top, containers and
//! list entries, with what stands in each. It stands on `nc_schema` and on the rows of a
//! configuration that `nc_tree` lists.
//!
//! `in_use` gives the value in use at a leaf or leaf-list entry: the one that stands, or the default
//! where none stands and it is in use. It takes no memory. `places_from` lists a place and all below it,
//! `places_sought` those of some data nodes, and `values_below` the values in use of a leaf there; all take
//! the `Children` of the schema, which are found once.
#![tactic(auto)]

mod below;
mod cases;
mod children;
mod here;
mod parts;
mod sought;
mod spans;
mod spots;
mod steps;
mod value;
mod values;

pub use below::values_below;
pub use cases::{all_chosen, is_chosen, is_made};
pub use children::Children;
pub use here::{Here, place_below, place_of, top};
pub use parts::{count_parts, count_up_to, next_of, row_of, run_end};
pub use sought::is_sought;
pub use spots::{Spot, has_places, is_same_number, node_there, places_from, places_sought};
pub use steps::{Steps, copied_step, found_below, found_next, own_below, steps_below};
pub use value::in_use;
pub use values::values_in_use;

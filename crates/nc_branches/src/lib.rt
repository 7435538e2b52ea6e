//! The rows of a configuration in a balanced tree whose copies share all but what changed. It stands on
//! the plain types of `nc_names` and on the schema of `nc_schema`.
//!
//! A `Tree` is seen as the list of its rows, whatever rows these are and in whatever order: each call says
//! which rows it gives, and where memory ends nothing is changed, since a change makes new nodes and shares
//! the others. Siblings stand in a balanced tree, and each has a tree of what is below it, so that a row, a
//! block or an entry is found and changed by the steps of its path. Where siblings stand in the order of
//! their numbers and keys a node is marked so, which is looked at when the node is made; where they do not,
//! a look-up goes both ways. `set` puts a block in its place, or gives `None` where it is not known on which
//! side of its siblings each step of the path stands. Of lists that the user orders a second tree knows which
//! entries have a row: by it (`lay`, `get_known`, ..) an entry is found by its label, and put beside another
//! one, without a list of their order. How deep a tree is bounds nothing but time.
#![tactic(auto)]

mod aim;
mod balance;
mod beneath;
mod berth;
mod cases;
mod children;
mod free;
mod front;
mod grow;
mod known;
mod labels;
mod lay;
mod locate;
mod look;
mod marks;
mod node;
mod outcome;
mod part;
mod parted;
mod place;
mod put;
mod reads;
mod regrow;
mod room;
mod same;
mod siblings;
mod tree;
mod way;
mod whole;

pub use cases::excludes;
pub use front::stands_before;
pub use lay::Laid;
pub use siblings::{child_before, is_by_user, is_same_step, keys_before};
pub use tree::Tree;

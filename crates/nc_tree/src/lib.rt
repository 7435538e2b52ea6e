//! A configuration as the list of its rows (RFC 7950 7.5 to 7.9), and the keeper of the running
//! configuration. It stands on the plain types of `nc_names`, on the schema of `nc_schema` and on the tree
//! of `nc_branches`, so that copies share all but what changed.
//!
//! A `Config` is seen as its list of rows: `put`, `set_block` and `remove` give exactly the rows that
//! `with_row`, `with_block` and the rows outside a subtree are, and leave the list as it was where
//! memory ends. A row, a block or an entry is found by the steps of its path. A `Keeper` keeps one
//! configuration, its base: `keep` makes what was prepared the base, or fails with a fault that is counted
//! and leaves the base as it was. A keeper says of each moment with which configurations the next start
//! begins whatever a crash has left since then.
#![tactic(auto)]

mod block;
mod config;
mod index;
mod keeper;
mod listed;
mod look;
mod mem_keeper;
mod size;
mod standing;

pub use block::{last_step, node_of, rows_of_node};
pub use config::Config;
pub use index::RowsByPath;
pub use keeper::{Doubt, Keeper, Kept};
pub use listed::Listed;
pub use mem_keeper::MemKeeper;
pub use standing::excludes;

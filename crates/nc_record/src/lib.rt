//! A configuration as the body of a record: what the store keeps of it. It stands on the configurations of
//! `nc_tree` by the schema of `nc_schema`, and reads through `nc_print` and `nc_payload`.
//!
//! `whole` gives exactly the bytes of nc_schema's definition `record_body`, and `whole_size` how many they
//! are. `read_record` gives the configuration that a body spells, and `Unreadable` exactly where it spells
//! none whose values are texts. A body is read in two passes. The first makes the one list of rows that may
//! be meant: each row stands where the row before it stands, as far as that leads to its data node, and a
//! list entry has the keys that follow it. The second asks whether this list is a configuration: it is
//! printed and read back as an inline configuration, and what was read is written again and compared with
//! the body. Neither takes memory by a number that the body announces.
#![tactic(auto)]

mod back;
mod body;
mod fault;
mod keys;
mod placed;
mod read;
mod row;
mod spelled;

pub use body::{whole, whole_size};
pub use fault::RecordFault;
pub use read::read_record;

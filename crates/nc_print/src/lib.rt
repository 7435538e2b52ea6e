//! Rows of a configuration as elements (RFC 7950 7.5.7, 7.6.5, 7.7.8 and 7.8.5).
//!
//! `print` gives exactly the elements that nc_protocol's definition `printed` has for rows in document order:
//! one for each row, and for each container without presence that has a row below it. Where a value may have
//! module names as prefixes these are bound on its element. Each row is looked at once for each step of its
//! path. `write_reply` appends the text of a reply: that of these elements where it shows rows, which no
//! elements are made of. `path_bounds` gives the bindings that a path text needs. The laws say that an
//! element so made for a data node is read back as that node, by nc_protocol's definition of a payload, and
//! that the elements of a whole configuration are read back as its rows.
#![tactic(auto)]

mod element;
mod elements;
mod latest;
mod laws;
mod module_names;
mod paths;
mod runs;
mod value_types;
mod writing;

pub use elements::print;
pub use laws::{
    canonical_is_read_as_itself, container_is_read_back, leaf_is_read_back, leaf_list_is_read_back,
    list_entry_is_read_back, merges_leave_rows, nothing_below_its_end, printed_holds_no_text,
    printed_is_merges, printed_is_named, printed_keys_are_read, printed_rows_are_read_back,
    printed_value_is_read,
};
pub use paths::path_bounds;
pub use writing::write_reply;

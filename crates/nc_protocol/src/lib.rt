//! What a client and a server say to one another, in plain terms: requests as they are read, the edits, rows
//! and filters of their payloads, changes between configurations, causes, and replies (RFC 6241, RFC 5717,
//! RFC 8341).
//!
//! The types are what the parts of the server hand to one another. The specifications beside them are the
//! definitions by which those parts are proved: requests and payloads read, one edit and several, what a
//! filter selects, rows printed, and the reply to a verdict. They know no state; the server's stands in
//! `nc_model`.
#![tactic(auto)]

mod access;
mod asked;
pub mod cause_words;
mod changes;
pub mod content;
mod datastore;
mod edit;
mod laws;
mod peer;
mod position;
mod reply;
pub mod reply_words;
mod request;
pub mod request_words;
mod verdict;

pub use access::{By, Decision, Rights, Sees, Unchecked};
pub use asked::{Asked, Default3, ErrorOption, Operation, Select, TestOption};
pub use changes::Changes;
pub use datastore::{Datastore, Origin};
pub use edit::{Action, Edit};
pub use laws::{
    below_is_below, cause_has_its_names, child_is_element, decoded_is_proper, edit_asks,
    edit_keeps_configuration, edit_keeps_tree, edit_leaves, edits_keep_tree,
    empty_filter_selects_nothing, entry_lands, inline_is_configuration, payload_fits,
    payload_keeps_configuration, places_are_in_order, reply_repeats_request, rows_stand_in_order,
    rows_stand_whole, selected_is_data_tree, selected_stands_in_rows,
    selection_node_selects_subtree,
};
pub use peer::Peer;
pub use position::{EditOperation, Position, Under};
pub use reply::{Reply, Shown};
pub use request::{Cause, Request};
pub use verdict::Verdict;

//! Replies to requests (RFC 6241 4.2 to 4.4; RFC 5717 2.4.1; RFC 8341 3.2.5 and 3.4.3).
//!
//! `reply_naming` gives exactly the tree that nc_protocol's definition of that name has for a request and its
//! verdict: the attributes of the `rpc` as they are written there, and `ok`, the selected rows, the locked
//! nodes, or an `rpc-error` for each cause. A path is written where the session sees it or the request's
//! payload names it, as a `Named` tells, and the names of a rule where the session sees the rule.
//! `hides_path` says where it matters what the payload names.
#![tactic(auto)]

mod built;
mod error;
mod hidden;
mod info;
mod named;
mod paths;
mod replies;
mod rows;

pub use hidden::hides_path;
pub use named::Named;
pub use replies::reply_naming;
pub use rows::tag_of;

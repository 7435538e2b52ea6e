//! What a request comes to, before anything is changed: its course, which is a verdict with a change, or a
//! commit. It stands on the definitions of `nc_model`, on payloads and replies, and on access control.
//!
//! `Governed` is the running configuration with the policies that it and the pending commit's base hold;
//! `Reach` is the access of one session; `Draft` is rows for the candidate. Contracts see them as the parts
//! of the state that they are, and nothing here knows the state.
#![tactic(auto)]

mod causes;
mod course;
mod datastores;
mod denied;
mod draft;
mod governed;
mod own;
mod payload;
mod reach;
mod reasons;

pub use causes::{checked, done_or_refused, refused};
pub use course::{Change, Course, done, done_unless, refused_course, unchanging};
pub use datastores::{
    name_of, not_offered, unsupported_origin, unsupported_source, unsupported_target,
};
pub use denied::{changes_denied, exec_denied};
pub use draft::Draft;
pub use governed::Governed;
pub use own::reply;
pub use payload::{edits_of, rows_of};
pub use reach::Reach;

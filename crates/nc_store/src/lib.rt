//! The running configuration on a disk: a `Keeper` over the journal of `nc_journal`, whose bodies are the
//! records of `nc_record`.
//!
//! `Store::begin` opens the file of a disk. It begins with the configuration of the last record, or with
//! the initial one where there is none, and says why a file is not opened: `Damaged` at the first place
//! that has no reading, also of a last record that spells no valid configuration, or `OtherModules` at the
//! first module that differs. `prepare` writes the body, and `keep` appends it to the live area while that
//! stays small, else it writes a new area with that one record. Contracts say of each call with which
//! configurations the next start begins whatever a crash has left: what was there before, or what the call
//! keeps; and after `Kept` that one alone.
#![tactic(auto)]

mod base;
mod fault;
mod ready;
mod store;
mod writing;

pub use fault::StoreFault;
pub use ready::{Ready, Way};
pub use store::Store;

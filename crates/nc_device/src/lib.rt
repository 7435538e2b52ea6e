//! The device that a folder makes, its open store with a server over it, and one session served alone at
//! such a server. It stands on the crates of the folder, of the store, of the server and of a session.
//!
//! `ready_of` answers the server of a folder before its first event, or why there is none and what is left
//! of the disk; the store knows the device by its header, the text of each module in order and the names of
//! the features that are on. `serve` gives one session the server, and says what of its history lasts over a
//! crash.
#![tactic(auto)]

mod device;
mod ground;
mod header;
mod opening;
mod session;

pub use device::Device;
pub use ground::{Ready, ready_of};
pub use opening::{Ended, Opened};
pub use session::{Over, serve};

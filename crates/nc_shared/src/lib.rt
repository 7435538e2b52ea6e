//! One machine that the sessions of many threads share: a desk for each, over one history.
//!
//! `Shared` keeps the machine and its clock in a turn, and `Seated` is the desk of one seat: a `submit` is
//! one turn, one reading of the clock, one call of the machine and one entry that is written. It stands on
//! nc_turn, nc_machine and the clock of nc_outside.
//!
//! What its calls promise: what a seat has seen is a beginning of one history that is legal from the
//! machine's state as it was handed in; each call at a desk that is not spent ends what it has seen with
//! one entry, which is one of its own unless it is a reading of the clock; two passes that are compared
//! have seen beginnings of one history and have no entry of their own in common; `close` gives the machine,
//! which went on by all of the history since it was handed in, and the clock, which answered once for each
//! of its entries. Nothing is promised of when a turn comes.
//!
//! `Seats` gives each connection of a server a desk of its own: a pass is split off for it, and compared
//! again when the desk is given back. Its calls keep the home of all these desks, and count those that are
//! out; `finish` gives the pass back with which the machine is closed. `serve_shared` serves a listener so,
//! and promises that the machine that it leaves stands for one legal history. That stands on nc_server.
#![tactic(auto)]

mod desk;
mod enter;
mod held;
mod reading;
mod seated;
mod seats;
mod serving;
mod shared;

pub use held::Held;
pub use reading::ReadAt;
pub use seated::Seated;
pub use seats::Seats;
pub use serving::{AfterServing, serve_shared};
pub use shared::Shared;

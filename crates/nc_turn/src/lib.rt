//! One value that several seats use in turn, and the one history that they make of it.
//!
//! A server has one state, and each of its sessions runs on a thread of its own. A turn keeps the
//! server's value in one slot, beside three words: the next ticket, the ticket that is served, and the
//! length of the history. A seat draws a ticket, waits until that is served, takes the value out, adds an
//! entry to the history, and puts the value back. The history itself exists in the proofs alone.
//!
//! What its public calls promise: the history is legal from the state in which the value began; what a
//! pass has seen is a beginning of it; a pass that has taken the value has seen all of it, and the value
//! stands for it; the entries that a pass wrote stand in it in their order, and no entry was written by
//! two passes; the value that `close` gives stands for all of it. Nothing is promised of when a ticket
//! is served.
//!
//! It stands on `atomic_table` of the kit and on the histories of nc_model.
#![tactic(auto)]

mod crossing;
mod plays;
mod stands;
mod turn;
mod view;

pub use crossing::turn_is_shared;
pub use stands::Stands;
pub use turn::Turn;
pub use view::{Pass, View};

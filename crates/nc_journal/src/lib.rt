//! The journal of the store: one file of bodies, which is opened whole after a crash at any moment. It
//! stands on nc_outside, over whose trait `Disk` it is written, and on nc_names. Bodies are octets here, and
//! so is the header by which a store knows its own files.
//!
//! A file has two slots, each with the place of an area; one byte, the chooser, tells which of the two areas
//! is the live one. `Journal::append` writes a body after the last one of the live area and then opens the
//! gate before it; `Journal::replace` writes a new area where it does no harm and then turns the chooser. So
//! one byte decides, and whatever a crash makes of that byte, the file holds what was there before or what
//! was being written: contracts say so of every crash image at every moment of a call, over any disk. After
//! `Kept` every image holds the new bodies alone.
//!
//! `Journal::begin` gives the bodies of the live area, writes a byte anew that a crash left torn, and makes
//! a new file. Of a file without a reading it tells the place, and of another header the first module that
//! differs; the law `one_outcome` says that a file is one of these only.
//!
//! The crate trials_journal tests it.
#![tactic(auto)]

mod blank;
mod fault;
mod framing;
mod front;
mod header;
mod journal;
mod kept;
mod laws;
mod making;
mod open;
mod places;
mod read;
mod repair;
mod start;
mod walk;
mod whole;

pub use fault::JournalFault;
pub use framing::{area_of, framed};
pub use journal::Journal;
pub use kept::{Doubt, Kept};
pub use laws::{one_outcome, one_reading};

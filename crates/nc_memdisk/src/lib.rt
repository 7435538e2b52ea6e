//! A disk in memory, for tests of what has to survive a crash. It stands on nc_outside, whose trait `Disk`
//! it meets, and on nc_names.
//!
//! It keeps the bytes with which it began and each call that it has done since. From these contracts know
//! what a read gives, every crash image at every moment, and five of these images exactly, which
//! `after_stop` makes. A call fails exactly where its maker says so: it is named by its number, the stop
//! has come, the file would be larger than 2^62 bytes, or no memory is found for it.
#![tactic(auto)]

mod done;
mod mem_disk;
mod picks;
mod pieces;

pub use done::DoneCall;
pub use mem_disk::MemDisk;

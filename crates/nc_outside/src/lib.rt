//! The outside of the server as traits: a source of bytes, a sink of bytes, the files of a setup
//! folder, a disk, a clock, a listener for connections with their lines, and a gate that hears of each
//! connection. Each stands beside an implementation in memory, whose calls fail where its maker says so
//! (that of the disk is nc_memdisk); sources, sinks and clocks stand also over std's. It stands on
//! nc_names alone.
//!
//! The ghost members of a trait are its model. What an object holds is an option there, since the
//! adapters over the operating system tell nothing of it. Each that can fail has a count of faults, which
//! an Ok leaves as it was and a fault raises; a listener counts those since its last connection, and a
//! source also how often it gave the end of input. A count that stands at its last value, 2^64 - 1,
//! stays there and is said to have risen.
//!
//! A disk says of each call what a crash may leave within it and after it. `put`, `put_two`, `empty`,
//! `settle` and `byte_at` are stretches of a few calls, proved for every disk; what stands on disks is
//! proved over them.
//!
//! trials_sessions tests the source and the sink in memory, and trials_machine the clock; what stands over
//! std is tested at the program.
#![tactic(auto)]

mod adapters;
mod clock;
mod disk;
mod fault;
mod files;
mod gate;
mod joined;
mod listener;
mod plan;
mod sink;
mod slices;
mod source;
mod stretches;

pub use adapters::{MonotonicClock, ReaderSource, WriterSink};
pub use clock::{Clock, MemClock};
pub use disk::Disk;
pub use fault::{Failed, FileFault};
pub use files::{Files, MemFiles, NamedFile};
pub use gate::{Gate, OpenGate};
pub use joined::{Hangup, Joined, Unheard};
pub use listener::{Listener, MemListener};
pub use plan::Plan;
pub use sink::{MemSink, Sink, write_all};
pub use source::{MemSource, Source};
pub use stretches::{byte_at, empty, put, put_two, settle};

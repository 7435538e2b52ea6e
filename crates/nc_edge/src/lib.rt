//! The operating system behind the traits of `nc_outside`, for a server that runs on a machine: the disk of
//! a store, the listener of a socket, and a gate that waits. It stands on nc_names and nc_outside.
//!
//! `FileDisk` is the file `running.nc` in the folder of a device. Its contracts say how it counts its
//! faults, and that a size and a write keep within the largest size. What they cannot say is trusted: that
//! a read gives what was written, that a sync that succeeds is durable, and that after a crash the file is
//! one of the images that the trait allows.
//!
//! `SocketListener` gives the connections of a Unix socket, or of a port of 127.0.0.1, as `read_address`
//! reads it from a word; that is exact. It counts its failures as its trait says. That it gives each
//! connection, that a line that is hung up ends a read, and that `PausingGate` waits, is trusted.
#![tactic(auto)]

mod address;
mod binding;
mod file_disk;
mod gate;
mod listener;
mod opening;
mod stream;
mod streams;
mod waiting;

pub use address::{Address, read_address};
pub use file_disk::FileDisk;
pub use gate::PausingGate;
pub use listener::{Connection, SocketListener, StreamLine, StreamWriter};
pub use stream::Stream;

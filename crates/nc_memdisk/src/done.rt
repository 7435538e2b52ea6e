//! A call that a disk in memory has done.
use nc_names::Bytes;

/// A call that a disk in memory has done, and which changed the file or made it durable.
#[derive(Drop)]
pub enum DoneCall {
    /// These bytes were written at a place.
    Write {
        /// The place of the first of them, counted from 0.
        at: u64,
        /// The bytes.
        bytes: Bytes,
    },
    /// The file was cut to a size.
    Cut {
        /// The size in bytes.
        size: u64,
    },
    /// The file was made durable.
    Sync,
}

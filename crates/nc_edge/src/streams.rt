//! The descriptors of the standard streams.
use std::fs::File;
use std::os::fd::AsRawFd;

/// The standard streams have the descriptors below this.
const STREAMS: i32 = 3;

/// Whether a file has the descriptor of a standard stream, which was closed then.
pub(crate) fn is_stream(file: &File) -> bool {
    file.as_raw_fd() < STREAMS
}

/// Files in place of the standard streams that are closed. While they are there, nothing that is opened has
/// the descriptor of a stream: else what the program writes to one could go to a connection.
pub(crate) fn stand_ins(rt: &HostRuntime) -> Vec<File> {
    let mut held = Vec::new(rt.alloc());
    for _ in 0..STREAMS {
        let Ok(file) = File::open(rt, "/dev/null") else {
            return held;
        };
        if !is_stream(&file) {
            return held;
        }
        if held.push(file).is_err() {
            return held;
        }
    }
    held
}

//! A socket is bound.
use crate::stream::Door;
use crate::{Address, read_address};
use std::fs;
use std::io::{self, ErrorKind};
use std::os::unix::fs::FileTypeExt;
use std::os::unix::net::{UnixListener, UnixStream};

// Whether a server that is gone has left its socket at a path: it is a socket, and whoever connects to it is
// refused.
fn is_stale(rt: &HostRuntime, path: &str) -> io::Result<bool> {
    if !fs::symlink_metadata(rt, path)?.file_type().is_socket() {
        return Ok(false);
    }
    match UnixStream::connect(rt, path) {
        Ok(_) => Ok(false),
        Err(error) => Ok(error.kind() == ErrorKind::ConnectionRefused),
    }
}

// Listens on a Unix socket. One that another server has left is removed, and nothing else is.
fn bind_unix(rt: &HostRuntime, path: &str) -> io::Result<Door> {
    match UnixListener::bind(rt, path) {
        Ok(listener) => return Ok(Door::Unix(listener)),
        Err(error) if error.kind() == ErrorKind::AddrInUse => {}
        Err(error) => return Err(error),
    }
    if !is_stale(rt, path)? {
        return Err(ErrorKind::AddrInUse.into());
    }
    fs::remove_file(rt, path)?;
    Ok(Door::Unix(UnixListener::bind(rt, path)?))
}

/// Listens at the address that a word names. The path of a Unix socket has at most 107 bytes.
pub(crate) fn bind(rt: &HostRuntime, word: &str) -> io::Result<Door> {
    match read_address(word) {
        Some(Address::Unix { path }) => bind_unix(rt, path),
        Some(Address::Tcp { port }) => Door::on_port(rt, port),
        None => Err(ErrorKind::InvalidInput.into()),
    }
}

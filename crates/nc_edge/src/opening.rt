//! The file of a store is opened.
use crate::streams::is_stream;
use std::fs::{File, OpenOptions, TryLockError};
use std::io::{self, ErrorKind};
use std::os::unix::fs::OpenOptionsExt;

// Takes the lock that keeps other programs from the file.
fn lock(file: &File) -> io::Result<()> {
    match file.try_lock() {
        Ok(()) => Ok(()),
        Err(TryLockError::WouldBlock) => Err(ErrorKind::WouldBlock.into()),
        Err(TryLockError::Error(error)) => Err(error),
    }
}

// Makes the name of a file in a folder durable.
fn sync_folder(rt: &HostRuntime, folder: &str) -> io::Result<()> {
    File::open(rt, folder)?.sync_all()
}

// A file beside the standard streams: else what the program writes to one that is closed would go into it.
fn beside_streams(file: File) -> io::Result<File> {
    if !is_stream(&file) {
        return Ok(file);
    }
    let second = file.try_clone()?;
    if !is_stream(&second) {
        return Ok(second);
    }
    let third = second.try_clone()?;
    if !is_stream(&third) {
        return Ok(third);
    }
    third.try_clone()
}

/// Opens the file at a path in a folder, or makes it, and locks it. A file that is empty may be a new one,
/// and so its folder is synced.
pub(crate) fn open(rt: &HostRuntime, folder: &str, path: &str) -> io::Result<File> {
    let mut options = OpenOptions::new();
    options.read(true).write(true).create(true).mode(0o600);
    let file = beside_streams(options.open(rt, path)?)?;
    let about = file.metadata()?;
    if !about.is_file() {
        return Err(ErrorKind::InvalidInput.into());
    }
    lock(&file)?;
    if about.len() == 0 {
        sync_folder(rt, folder)?;
    }
    Ok(file)
}

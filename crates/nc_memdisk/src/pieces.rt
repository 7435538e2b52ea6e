//! The bytes of a file after a call.
ghost use Rattle.std.specs.Prelude.{◌≡◌, take, IfOk};
ghost use Rattle.nc_outside.specs.Disks.{written_at};
ghost use Rattle.nc_memdisk.specs.Images.{seen_one};

use crate::DoneCall;
use nc_names::{Bytes, Memory};
use std::alloc::Global;

/// A file with bytes written over it at a place, or past its end.
pub fn written(alloc: Global, file: &[u8], at: u64, bytes: &[u8]) -> Result<Bytes, Memory>
    ensures { IfOk result (λ it. it ≡ written_at at bytes.now file.now) }
{
    let front = (at.min(file.len() as u64)) as usize;
    let mut next = Bytes::from_slice(alloc, &file[..front])?;
    next.push_slice(bytes)?;
    if bytes.len() < file.len() - front {
        next.push_slice(&file[front + bytes.len()..])?;
    }
    Ok(next)
}

/// The first bytes of a file, so many of them, or all where it has fewer.
pub fn front(alloc: Global, file: &[u8], size: u64) -> Result<Bytes, Memory>
    ensures { IfOk result (λ it. it ≡ take size file.now) }
{
    let count = (size.min(file.len() as u64)) as usize;
    Bytes::from_slice(alloc, &file[..count])
}

/// What a read gives after a call.
pub fn seen_after_one(alloc: Global, call: &DoneCall, file: &[u8]) -> Result<Bytes, Memory>
    ensures { IfOk result (λ it. it ≡ seen_one call.now file.now) }
{
    match call {
        DoneCall::Write { at, bytes } => written(alloc, file, *at, bytes.as_slice()),
        DoneCall::Cut { size } => front(alloc, file, *size),
        DoneCall::Sync => Bytes::from_slice(alloc, file),
    }
}

//! Five of the images that a crash may leave of a disk in memory.
ghost use Rattle.std.specs.Prelude.{◌≡◌, IfOk};
ghost use Rattle.nc_memdisk.specs.Picks.{part, picked, picked_one};

use crate::DoneCall;
use crate::pieces::{front, seen_after_one, written};
use nc_names::{Bytes, Memory};
use std::alloc::Global;

// What a pick writes of these bytes: 0 none, 1 all, 2 the first half, 3 each byte 255, 4 each byte 1.
fn part_of(alloc: Global, pick: u32, bytes: &[u8]) -> Result<Bytes, Memory>
    ensures { IfOk result (λ it. it ≡ part pick bytes.now) }
{
    if pick == 0 {
        return Ok(Bytes::new(alloc));
    }
    if pick == 1 {
        return Bytes::from_slice(alloc, bytes);
    }
    if pick == 2 {
        return Bytes::from_slice(alloc, &bytes[..bytes.len() / 2]);
    }
    let value = if pick == 3 { 255 } else { 1 };
    Ok(Bytes::from_vec(vec![in alloc; value; bytes.len()]?))
}

// What a write leaves of an image. Past its end it leaves nothing.
fn torn(alloc: Global, pick: u32, image: &[u8], at: u64, bytes: &[u8]) -> Result<Bytes, Memory>
    ensures { IfOk result (λ it. it ≡ picked_one pick (DoneCall.Write at bytes.now) image.now image.now) }
{
    if (image.len() as u64) < at {
        return Bytes::from_slice(alloc, image);
    }
    let part = part_of(alloc, pick, bytes)?;
    written(alloc, image, at, part.as_slice())
}

// What a crash leaves after one more call, of an image and of what a read gave.
fn one_more_call(
    alloc: Global,
    pick: u32,
    call: &DoneCall,
    image: &[u8],
    seen: &[u8],
) -> Result<Bytes, Memory>
    ensures { IfOk result (λ it. it ≡ picked_one pick call.now image.now seen.now) }
{
    match call {
        DoneCall::Write { at, bytes } => torn(alloc, pick, image, *at, bytes.as_slice()),
        DoneCall::Cut { size } => {
            if pick == 1 || pick == 3 {
                front(alloc, image, *size)
            } else {
                Bytes::from_slice(alloc, image)
            }
        }
        DoneCall::Sync => Bytes::from_slice(alloc, seen),
    }
}

/// What a crash leaves of a file after these calls, by a pick.
pub fn image_of(alloc: Global, pick: u32, first: &[u8], log: &[DoneCall]) -> Result<Bytes, Memory>
    ensures { IfOk result (λ it. it ≡ picked pick first.now first.now log.now) }
{
    let mut image = Bytes::from_slice(alloc, first)?;
    let mut seen = Bytes::from_slice(alloc, first)?;
    for call in log {
        let next = one_more_call(alloc, pick, call, image.as_slice(), seen.as_slice())?;
        let later = seen_after_one(alloc, call, seen.as_slice())?;
        image = next;
        seen = later;
    }
    Ok(image)
}

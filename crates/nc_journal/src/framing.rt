//! Bodies and areas as bytes.
ghost use Rattle.std.specs.Prelude.{◌≡◌, ◌++◌, [], ◌∷◌, IfOk};
ghost use Rattle.nc_journal.specs.Format.{framed as in_frame, area};

use crate::places::number_of;
use nc_names::{Bytes, Memory};
use std::alloc::Global;

/// The bytes of a record beside its body: its gate, and the length of the body.
const RECORD_HEAD: usize = 9;

// No bytes, with room for so many.
fn with_room(alloc: Global, count: usize) -> Result<Bytes, Memory>
    ensures { IfOk result (λ it. it ≡ []) }
{
    Ok(Bytes::from_vec(Vec::with_capacity(alloc, count)?))
}

/// A body with its length before it and a closed gate after it, as `Journal::append` takes it.
pub fn framed(alloc: Global, body: &[u8]) -> Result<Bytes, Memory>
    ensures { IfOk result (λ it. it ≡ in_frame body.now) }
{
    let mut bytes = with_room(alloc, body.len().saturating_add(RECORD_HEAD))?;
    bytes.push_slice(&number_of(body.len() as u64))?;
    bytes.push_slice(body)?;
    bytes.push(0)?;
    Ok(bytes)
}

/// An area with one body and a closed gate, as `Journal::replace` takes it.
pub fn area_of(alloc: Global, header: &[u8], body: &[u8]) -> Result<Bytes, Memory>
    ensures { IfOk result (λ it. it ≡ area header.now (body.now ∷ []) ++ 0 ∷ []) }
{
    let record = body.len().saturating_add(RECORD_HEAD);
    let mut bytes = with_room(alloc, header.len().saturating_add(record).saturating_add(1))?;
    bytes.push_slice(header)?;
    bytes.push(1)?;
    bytes.push_slice(&number_of(body.len() as u64))?;
    bytes.push_slice(body)?;
    bytes.push(0)?;
    Ok(bytes)
}

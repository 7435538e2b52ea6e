//! The bytes of a new file.
ghost use Rattle.std.specs.Prelude.{◌≡◌, IfOk};
ghost use Rattle.nc_journal.specs.Format.{blank};

use crate::places::{AREAS_BEGIN, mark_bytes, number_of};
use nc_names::{Bytes, Memory};
use std::alloc::Global;

/// All of a new file but its first byte.
pub(crate) fn blank_of(alloc: Global, header: &[u8]) -> Result<Bytes, Memory>
    ensures { IfOk result (λ it. it ≡ blank header.now) }
{
    let mut bytes = Bytes::new(alloc);
    bytes.push_slice(mark_bytes())?;
    bytes.push(0)?;
    bytes.push_slice(&number_of(AREAS_BEGIN))?;
    bytes.push_slice(&number_of(0))?;
    bytes.push_slice(header)?;
    bytes.push(0)?;
    Ok(bytes)
}

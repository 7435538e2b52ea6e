//! A configuration that is ready to be kept.
ghost use Rattle.std.specs.Prelude.{◌≡◌, ◌≤◌, ◌+◌, length, nat_le, true, IfOk};
ghost use Rattle.nc_store.specs.Keeping.{IsWay, area_limit};

use nc_journal::{area_of, framed};
use nc_names::{Bytes, Memory};
use nc_tree::Config;
use std::alloc::Global;

/// An area of up to so many bytes is always appended to.
const SMALL_AREA: u128 = 1_048_576;

/// The bytes of a record beside its body: its gate, and the length of the body.
const RECORD_HEAD: u128 = 9;

/// How a record is written: after the last one, or alone in a new area.
#[derive(Drop)]
pub enum Way {
    /// After the last one: the body with its length before it and a closed gate after it.
    Append { framed: Bytes },
    /// A new area with this record alone, up to its closed gate.
    Replace { area: Bytes },
}

/// A configuration that is ready to be kept.
#[derive(Drop)]
pub struct Ready {
    pub(crate) rows: Config,
    pub(crate) way: Way,
}

// Whether a record is written after the last one: with it, the live area of so many bytes stays small enough.
fn is_to_append(live: u64, header: usize, body: usize) -> bool
    ensures { result ≡ nat_le (live + (9 + body)) (area_limit header body) }
{
    let record = RECORD_HEAD + body as u128;
    let whole = header as u128 + record + 1;
    live as u128 + record <= SMALL_AREA.max(4 * whole)
}

/// How a record with this body is written by a store whose live area has so many bytes.
pub(crate) fn way_of(alloc: Global, live: u64, header: &[u8], body: &[u8]) -> Result<Way, Memory>
    ensures { IfOk result (IsWay live header.now body.now) }
{
    if is_to_append(live, header.len(), body.len()) {
        let bytes = framed(alloc, body)?;
        return Ok(Way::Append { framed: bytes });
    }
    let bytes = area_of(alloc, header, body)?;
    Ok(Way::Replace { area: bytes })
}

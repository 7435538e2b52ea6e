//! The rows of a body, as their records tell of them.
ghost use Rattle.std.specs.Prelude.{◌≡◌, ◌+◌, ◌<◌, ◌≤◌, ◌^◌, ◌++◌, ℕ, List, [], length, map, take, drop, Some, IfOk, OnSome, IsUtf8};
ghost use Rattle.std.specs.List.{All, flat_map};
ghost use Rattle.nc_names.specs.declared.path.Row.{Row};
ghost use Rattle.nc_schema.specs.Record.{in_four_bytes, row_record};
ghost use Rattle.nc_record.specs.inner.Given.{FitsRecord, Gives, spelled_of};

use crate::RecordFault;
use nc_names::{Many, Text, tail};
use std::alloc::Global;

/// A row as its record tells of it: the number of its data node, and its value, empty where it has none.
#[derive(Drop)]
pub struct Spelled {
    pub(crate) node: u32,
    pub(crate) value: Text,
}

// The number in the first four bytes, the highest first.
fn number(bytes: &[u8]) -> Option<u32>
    ensures read { (n : ℕ) (more : List ℕ) → n < 2 ^ 32 → bytes.now ≡ in_four_bytes n ++ more →
        result ≡ Some n }
    ensures long { OnSome result (4 ≤ length bytes.now) }
{
    if bytes.len() < 4 {
        return None;
    }
    Some(u32::from_be_bytes([bytes[0], bytes[1], bytes[2], bytes[3]]))
}

// The text of these bytes.
fn text_of(alloc: Global, bytes: &[u8]) -> Result<Text, RecordFault>
    ensures is { IfOk result (λ it. it ≡ bytes.now) }
    ensures text { IsUtf8 bytes.now → Gives (λ it. it ≡ bytes.now) result }
{
    match str::from_utf8(bytes) {
        Ok(text) => Ok(Text::from_text(alloc, text)?),
        Err(_) => Err(RecordFault::Unreadable),
    }
}

// The first bytes, so many of them.
fn front(bytes: &[u8], count: usize) -> &[u8]
    requires { count ≤ length bytes.now }
    ensures { result.now ≡ take count bytes.now }
{
    &bytes[..count]
}

// The first row. A schema with so many data nodes has no other numbers of them.
fn first_row(alloc: Global, nodes: u32, bytes: &[u8]) -> Result<Spelled, RecordFault>
    ensures read { (row : Row) (more : List ℕ) → FitsRecord nodes row → bytes.now ≡ row_record row ++ more →
        Gives (λ it. it ≡ spelled_of row) result }
    ensures within { IfOk result (λ it. 8 + length it.value ≤ length bytes.now) }
{
    let Some(node) = number(bytes) else {
        return Err(RecordFault::Unreadable);
    };
    if node >= nodes {
        return Err(RecordFault::Unreadable);
    }
    let second = tail(bytes, 4);
    let Some(size) = number(second) else {
        return Err(RecordFault::Unreadable);
    };
    let size = size as usize;
    let rest = tail(second, 4);
    if rest.len() < size {
        return Err(RecordFault::Unreadable);
    }
    let value = text_of(alloc, front(rest, size))?;
    Ok(Spelled { node, value })
}

// The bytes after those of a row.
fn after_row<'a>(bytes: &'a [u8], row: &Spelled) -> &'a [u8]
    requires { 8 + length row.now.value ≤ length bytes.now }
    ensures { result.now ≡ drop (8 + length row.now.value) bytes.now }
{
    tail(bytes, 8 + row.value.len())
}

/// The rows whose records these bytes are, by a schema with so many data nodes.
pub(crate) fn rows_in(alloc: Global, nodes: u32, bytes: &[u8]) -> Result<Many<Spelled>, RecordFault>
    ensures { (rows : List Row) → All (FitsRecord nodes) rows → bytes.now ≡ flat_map row_record rows →
        Gives (λ it. it ≡ map spelled_of rows) result }
{
    let mut found = Many::new(alloc);
    let mut rest = bytes;
    while !rest.is_empty() {
        let row = first_row(alloc, nodes, rest)?;
        let more = after_row(rest, &row);
        found.push(row)?;
        rest = more;
    }
    Ok(found)
}

//! Steps of the tests.
ghost use Rattle.std.specs.Prelude.{◌≡◌, ◌≤◌, ℕ, List, length};
ghost use Rattle.nc_names.specs.Limits.{body_limit};
ghost use Rattle.nc_outside.specs.Disks.{Told};
ghost use Rattle.nc_journal.specs.Header.{IsHeader};
ghost use Rattle.nc_journal.specs.Journal.{IsSound};

use nc_journal::{Journal, Kept, area_of, framed};
use nc_memdisk::MemDisk;
use nc_names::{Bytes, Memory};
use nc_outside::Disk;
use std::alloc::Global;

/// The header of one module text, `m`, and of the features `f`.
#[tactic(auto, unfolding(nc_journal::specs::Header::short_number, nc_journal::specs::Format::number))]
pub(crate) fn header() -> &'static [u8]
    ensures { (modules : List (List ℕ)) × (features : List ℕ) × IsHeader modules features result.now }
{
    b"\0\0\0\x01\0\0\0\x01m\0\0\0\0\0\0\0\x01f"
}

/// Appends a body.
pub(crate) fn add<D: Disk>(
    alloc: Global,
    journal: &mut Journal<D>,
    body: &[u8],
) -> Result<Kept, Memory>
    requires sound { (header : List ℕ) ×
        Told (D.seen journal.old.disk) (λ file. IsSound D.seen D.may_leave header journal.old) }
    requires small { length body.now ≤ body_limit }
    ensures { (header : List ℕ) →
        Told (D.seen journal.old.disk) (λ file. IsSound D.seen D.may_leave header journal.old) →
        Told (D.seen journal.new.disk) (λ file. IsSound D.seen D.may_leave header journal.new) }
{
    let bytes = framed(alloc, body)?;
    Ok(journal.append(bytes.as_slice()))
}

/// Puts an area with one body in the place of the live one.
pub(crate) fn swap<D: Disk>(
    alloc: Global,
    journal: &mut Journal<D>,
    header: &[u8],
    body: &[u8],
) -> Result<Kept, Memory>
    requires sound { Told (D.seen journal.old.disk) (λ file.
        IsSound D.seen D.may_leave header.now journal.old) }
    requires small { length body.now ≤ body_limit }
    ensures { Told (D.seen journal.new.disk) (λ file. IsSound D.seen D.may_leave header.now journal.new) }
{
    let bytes = area_of(alloc, header, body)?;
    Ok(journal.replace(bytes.as_slice(), 1))
}

/// The bodies of a file, each followed by a space, or none where it is not opened.
pub(crate) fn shown(alloc: Global, disk: MemDisk) -> Result<Option<Bytes>, Memory> {
    let mut text = Bytes::new(alloc);
    match Journal::begin(alloc, disk, header()) {
        Ok((_, bodies)) => {
            for body in bodies.as_slice() {
                text.push_slice(body.as_slice())?;
                text.push(b' ')?;
            }
            Ok(Some(text))
        }
        Err(_) => Ok(None),
    }
}

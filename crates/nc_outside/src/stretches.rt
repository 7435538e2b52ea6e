//! Stretches of a few calls of a disk, each with what a crash may leave within it and after it.
ghost use Rattle.std.specs.Prelude.{◌≡◌, ◌+◌, ◌≤◌, ℕ, List, Option, Some, [], length, is_some, slice_get, IfOk, OnOk};
ghost use Rattle.nc_outside.specs.Causes.{HasCause};
ghost use Rattle.nc_outside.specs.Disks.{Told, written_at, largest_size, Torn, CutTo, Same, Then, Within, Passes, IsSettled};

use crate::{Disk, Failed};

/// Writes bytes at a place of the file or at its end, and syncs. `Ok` means that they are durable; a crash
/// before may leave the write torn.
///
/// `Failed` means that the write or the sync failed, and comes only where the count of faults rose.
pub fn put<D: Disk>(disk: &mut D, at: u64, bytes: &[u8]) -> Result<(), Failed>
    requires { Told (D.seen disk.old) (λ file. at ≤ length file) }
    ensures done { OnOk result (Told (D.seen disk.old) (λ file.
        IsSettled D.seen D.may_leave disk.new (written_at at bytes.now file))) }
    ensures fits { OnOk result (at + length bytes.now ≤ largest_size) }
    ensures tells { is_some (D.seen disk.new) ≡ is_some (D.seen disk.old) }
    ensures passes { Passes D.may_leave D.moment D.left_since (Torn at (length bytes.now)) disk.old disk.new }
    ensures cause { HasCause (D.faults disk.old) (D.faults disk.new) result }
{
    disk.write_at(at, bytes)?;
    disk.sync()
}

/// Writes bytes at two places, one after the other, and syncs once. A crash before may leave each of the
/// writes torn, whatever it leaves of the other.
///
/// `Failed` means that a write or the sync failed, and comes only where the count of faults rose.
pub fn put_two<D: Disk>(
    disk: &mut D,
    at: u64,
    bytes: &[u8],
    other: u64,
    others: &[u8],
) -> Result<(), Failed>
    requires first { Told (D.seen disk.old) (λ file. at ≤ length file) }
    requires second { Told (D.seen disk.old) (λ file. other ≤ length file) }
    ensures done { OnOk result (Told (D.seen disk.old) (λ file.
        IsSettled D.seen D.may_leave disk.new (written_at other others.now (written_at at bytes.now file)))) }
    ensures fits { OnOk result (at + length bytes.now ≤ largest_size) }
    ensures tells { is_some (D.seen disk.new) ≡ is_some (D.seen disk.old) }
    ensures passes { Passes D.may_leave D.moment D.left_since
        (Then (Torn at (length bytes.now)) (Torn other (length others.now))) disk.old disk.new }
    ensures cause { HasCause (D.faults disk.old) (D.faults disk.new) result }
{
    disk.write_at(at, bytes)?;
    disk.write_at(other, others)?;
    disk.sync()
}

/// Cuts the file to nothing, and syncs. A crash before may leave the old file.
///
/// `Failed` means that the cut or the sync failed, and comes only where the count of faults rose.
pub fn empty<D: Disk>(disk: &mut D) -> Result<(), Failed>
    ensures done { OnOk result (Told (D.seen disk.old) (λ file. IsSettled D.seen D.may_leave disk.new [])) }
    ensures tells { is_some (D.seen disk.new) ≡ is_some (D.seen disk.old) }
    ensures passes { Passes D.may_leave D.moment D.left_since (CutTo 0) disk.old disk.new }
    ensures cause { HasCause (D.faults disk.old) (D.faults disk.new) result }
{
    disk.cut(0)?;
    disk.sync()
}

/// Syncs, and gives the size of the file, which is durable then.
///
/// `Failed` means that one of the two calls failed, and comes only where the count of faults rose.
pub fn settle<D: Disk>(disk: &mut D) -> Result<u64, Failed>
    ensures done { IfOk result (λ size. Told (D.seen disk.old) (λ file.
        (size ≡ length file) × IsSettled D.seen D.may_leave disk.new file)) }
    ensures bound { IfOk result (λ size. size ≤ largest_size) }
    ensures seen { D.seen disk.new ≡ D.seen disk.old }
    ensures passes { Passes D.may_leave D.moment D.left_since Same disk.old disk.new }
    ensures cause { HasCause (D.faults disk.old) (D.faults disk.new) result }
{
    disk.sync()?;
    disk.size()
}

/// The byte at a place, or `None` past the end of the file.
///
/// `Failed` means that the read failed, and comes only where the count of faults rose.
pub fn byte_at<D: Disk>(disk: &mut D, at: u64) -> Result<Option<u8>, Failed>
    ensures byte { IfOk result (λ it. Told (D.seen disk.old) (λ file. it ≡ slice_get file at)) }
    ensures seen { D.seen disk.new ≡ D.seen disk.old }
    ensures passes { Passes D.may_leave D.moment D.left_since Same disk.old disk.new }
    ensures within { Within (D.may_leave disk.old) (D.may_leave disk.new) }
    ensures cause { HasCause (D.faults disk.old) (D.faults disk.new) result }
{
    let mut into = [0u8; 1];
    let count = disk.read(at, &mut into)?;
    if count == 0 {
        Ok(None)
    } else {
        Ok(Some(into[0]))
    }
}

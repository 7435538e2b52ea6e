//! A new file is made.
ghost use Rattle.std.specs.Prelude.{◌≡◌, ℕ, List, [], length, is_some, OnOk, false};
ghost use Rattle.nc_outside.specs.Causes.{HasCause};
ghost use Rattle.nc_outside.specs.Disks.{Told, CutTo, Passes, LeavesOnly, IsSettled};
ghost use Rattle.nc_journal.specs.Format.{blank};
ghost use Rattle.nc_journal.specs.Files.{IsNew};
ghost use Rattle.nc_journal.specs.Images.{IsClean};
ghost use Rattle.nc_journal.specs.Opening.{StartsNew};

use nc_outside::{Disk, Failed, empty, put};

// Cuts a file that is not empty to nothing.
fn clear<D: Disk>(disk: &mut D, size: u64) -> Result<(), Failed>
    ensures done { OnOk result ((file : List ℕ) → IsSettled D.seen D.may_leave disk.old file →
        size ≡ length file → IsSettled D.seen D.may_leave disk.new []) }
    ensures tells { is_some (D.seen disk.new) ≡ is_some (D.seen disk.old) }
    ensures passes { Passes D.may_leave D.moment D.left_since (CutTo 0) disk.old disk.new }
    ensures cause { HasCause (D.faults disk.old) (D.faults disk.new) result }
{
    if size == 0 {
        return Ok(());
    }
    empty(disk)
}

/// Makes a new file of one that is new: its first byte 00, the rest, and then the first byte 01. `rest` is
/// all of it but the first byte.
pub(crate) fn make<D: Disk>(disk: &mut D, size: u64, rest: &[u8]) -> Result<(), Failed>
    requires { Told (D.seen disk.old) (λ file.
        IsSettled D.seen D.may_leave disk.old file × (size ≡ length file)) }
    ensures done { OnOk result (Told (D.seen disk.old) (λ file. (header : List ℕ) → rest.now ≡ blank header →
        (c : List ℕ) → D.may_leave disk.new c → IsClean header false 26 [] c)) }
    ensures moments { Told (D.seen disk.old) (λ file. (header : List ℕ) → rest.now ≡ blank header →
        IsNew header file → LeavesOnly D.moment D.left_since disk.old disk.new (StartsNew header)) }
    ensures tells { is_some (D.seen disk.new) ≡ is_some (D.seen disk.old) }
    ensures cause { HasCause (D.faults disk.old) (D.faults disk.new) result }
{
    clear(disk, size)?;
    put(disk, 0, &[0])?;
    put(disk, 1, rest)?;
    put(disk, 0, &[1])
}

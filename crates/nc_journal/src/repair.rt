//! A byte that a crash left between two values is written anew.
ghost use Rattle.std.specs.Prelude.{◌≡◌, ◌≤◌, ℕ, List, [], ◌∷◌, Option, Some, nat_eq, length, slice_get, is_some, OnOk};
ghost use Rattle.nc_outside.specs.Causes.{HasCause};
ghost use Rattle.nc_outside.specs.Disks.{Told, LeavesOnly, IsSettled, written_at};
ghost use Rattle.nc_journal.specs.Format.{gate_place};
ghost use Rattle.nc_journal.specs.Files.{HoldsAt, HoldsAmong, HasArea};
ghost use Rattle.nc_journal.specs.Images.{IsClean};
ghost use Rattle.nc_journal.specs.Journal.{allowed};

use crate::places::{CHOOSER, chooser_of};
use nc_outside::{Disk, Failed, put};

// Closes a gate, and chooses the first slot. No crash leaves both torn.
fn put_both<D: Disk>(disk: &mut D, gate: u64) -> Result<(), Failed>
    requires chooser { Told (D.seen disk.old) (λ file. 9 ≤ length file) }
    requires gate { Told (D.seen disk.old) (λ file. gate ≤ length file) }
    ensures done { OnOk result (Told (D.seen disk.old) (λ file.
        IsSettled D.seen D.may_leave disk.new (written_at 9 (0 ∷ []) (written_at gate (0 ∷ []) file)))) }
    ensures tells { is_some (D.seen disk.new) ≡ is_some (D.seen disk.old) }
    ensures cause { HasCause (D.faults disk.old) (D.faults disk.new) result }
{
    put(disk, gate, &[0])?;
    put(disk, CHOOSER, &[0])
}

/// Writes a chooser that is torn, and a last gate that is not closed, as 00. `byte` is the chooser as it
/// stands, and `gate_byte` the last gate.
pub(crate) fn repair<D: Disk>(
    disk: &mut D,
    byte: u8,
    second: bool,
    gate: u64,
    gate_byte: u8,
) -> Result<(), Failed>
    requires chooser { Told (D.seen disk.old) (λ file. slice_get file 9 ≡ Some byte) }
    requires gate { Told (D.seen disk.old) (λ file. slice_get file gate ≡ Some gate_byte) }
    ensures done { OnOk result (Told (D.seen disk.old) (λ file. IsSettled D.seen D.may_leave disk.old file →
        (header : List ℕ) (place : ℕ) (bodies : List (List ℕ)) (doubt : Option (List (List ℕ))) →
        HoldsAt header second place bodies doubt file → gate ≡ gate_place header bodies place →
        (c : List ℕ) → D.may_leave disk.new c → IsClean header second place bodies c)) }
    // Whatever stands after what was torn, the file is at rest.
    ensures clean { OnOk result (Told (D.seen disk.old) (λ file. IsSettled D.seen D.may_leave disk.old file →
        (header : List ℕ) (place : ℕ) (bodies : List (List ℕ)) → HasArea header second place bodies file →
        gate ≡ gate_place header bodies place → second ≡ nat_eq byte 1 →
        (c : List ℕ) → D.may_leave disk.new c → IsClean header second place bodies c)) }
    ensures moments { Told (D.seen disk.old) (λ file. IsSettled D.seen D.may_leave disk.old file →
        (header : List ℕ) (place : ℕ) (bodies : List (List ℕ)) (doubt : Option (List (List ℕ))) →
        HoldsAt header second place bodies doubt file → gate ≡ gate_place header bodies place →
        LeavesOnly D.moment D.left_since disk.old disk.new (HoldsAmong header (allowed bodies doubt))) }
    ensures tells { is_some (D.seen disk.new) ≡ is_some (D.seen disk.old) }
    ensures cause { HasCause (D.faults disk.old) (D.faults disk.new) result }
{
    let wanted = chooser_of(second);
    if byte != wanted {
        if gate_byte != 0 {
            return put_both(disk, gate);
        }
        return put(disk, CHOOSER, &[0]);
    }
    if gate_byte != 0 {
        return put(disk, gate, &[0]);
    }
    Ok(())
}

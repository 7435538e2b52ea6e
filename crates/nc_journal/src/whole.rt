//! A file is read whole, and what was torn is written anew.
ghost use Rattle.std.specs.Prelude.{◌≡◌, ◌<◌, ◌≤◌, ℕ, List, Option, Some, length, slice_get, nat_eq, is_some, IfOk, OnErr};
ghost use Rattle.nc_outside.specs.Disks.{Told, LeavesOnly, IsSettled, largest_size};
ghost use Rattle.nc_journal.specs.Format.{gate_place};
ghost use Rattle.nc_journal.specs.Files.{IsNew, Holds, HoldsAt, HoldsAmong, HasArea};
ghost use Rattle.nc_journal.specs.Images.{IsClean};
ghost use Rattle.nc_journal.specs.Journal.{allowed};
ghost use Rattle.nc_journal.specs.Opening.{IsRead};
ghost use Rattle.nc_journal.specs.inner.Reading.{OnlyReads};
ghost use Rattle.nc_journal.specs.inner.Faults.{OnRefused, OnStopped, HasFault};
ghost use Rattle.nc_journal.specs.Header.{IsHeader};
ghost use Rattle.nc_journal.specs.Refusing.{IsRefused};

use crate::JournalFault;
use crate::front::front_of;
use crate::header::{first_other, is_ours};
use crate::repair::repair;
use crate::walk::walk;
use nc_names::{Bytes, Many};
use nc_outside::Disk;
use std::alloc::Global;

/// What was read of a file: the chooser, whether it chooses the second slot, the place of the live area and
/// that of its last gate, that gate, and the bodies.
#[derive(Drop)]
pub(crate) struct Whole {
    pub byte: u8,
    pub second: bool,
    pub start: u64,
    pub gate: u64,
    pub gate_byte: u8,
    pub bodies: Many<Bytes>,
}

// Reads a file of this size that is not new.
fn read_whole<D: Disk>(
    alloc: Global,
    disk: &mut D,
    size: u64,
    header: &[u8],
) -> Result<Whole, JournalFault>
    requires ours { (modules : List (List ℕ)) × (features : List ℕ) × IsHeader modules features header.now }
    requires room { size ≤ largest_size }
    ensures held { IfOk result (λ it. Told (D.seen disk.old) (λ file. length file ≡ size →
        (bodies : List (List ℕ)) (doubt : Option (List (List ℕ))) → Holds header.now bodies doubt file →
        HoldsAt header.now it.second it.start bodies doubt file × (it.bodies ≡ bodies) ×
        (it.gate ≡ gate_place header.now bodies it.start))) }
    ensures bytes { IfOk result (λ it. Told (D.seen disk.old) (λ file.
        (slice_get file 9 ≡ Some it.byte) × (slice_get file it.gate ≡ Some it.gate_byte))) }
    ensures fits { IfOk result (λ it. it.gate < size) }
    ensures read { IfOk result (λ it. Told (D.seen disk.old) (λ file. length file ≡ size →
        IsRead header.now it.bodies file)) }
    ensures why { OnRefused result (λ fault. Told (D.seen disk.old) (λ file. length file ≡ size →
        ¬ IsNew header.now file → IsRefused header.now fault file)) }
    ensures names { IfOk result (λ it. Told (D.seen disk.old) (λ file. length file ≡ size →
        HasArea header.now it.second it.start it.bodies file ×
        (it.gate ≡ gate_place header.now it.bodies it.start) × (it.second ≡ nat_eq it.byte 1))) }
    ensures only_reads { OnlyReads D.seen D.may_leave D.moment D.left_since disk.old disk.new }
    ensures cause { HasFault (D.faults disk.old) (D.faults disk.new) result }
{
    let front = front_of(disk, size)?;
    if !is_ours(disk, front.place, size, header)? {
        let at = first_other(disk, front.place, size, header)?;
        return Err(JournalFault::OtherHeader { at });
    }
    let walked = walk(alloc, disk, front.place + header.len() as u64, size)?;
    Ok(Whole {
        byte: front.byte,
        second: front.second,
        start: front.place,
        gate: walked.gate,
        gate_byte: walked.byte,
        bodies: walked.bodies,
    })
}

/// Reads a file of this size that is not new, and writes anew what is torn.
pub(crate) fn mend<D: Disk>(
    alloc: Global,
    disk: &mut D,
    size: u64,
    header: &[u8],
) -> Result<Whole, JournalFault>
    requires ours { (modules : List (List ℕ)) × (features : List ℕ) × IsHeader modules features header.now }
    requires room { size ≤ largest_size }
    ensures clean { IfOk result (λ it. Told (D.seen disk.old) (λ file.
        IsSettled D.seen D.may_leave disk.old file → length file ≡ size →
        (bodies : List (List ℕ)) (doubt : Option (List (List ℕ))) → Holds header.now bodies doubt file →
        (it.bodies ≡ bodies) × (it.gate ≡ gate_place header.now bodies it.start) ×
        ((c : List ℕ) → D.may_leave disk.new c → IsClean header.now it.second it.start bodies c))) }
    // Whatever a torn byte may turn into, the file is at rest.
    ensures rests { IfOk result (λ it. Told (D.seen disk.old) (λ file.
        IsSettled D.seen D.may_leave disk.old file → length file ≡ size →
        (it.gate ≡ gate_place header.now it.bodies it.start) ×
        ((c : List ℕ) → D.may_leave disk.new c → IsClean header.now it.second it.start it.bodies c))) }
    ensures fits { IfOk result (λ it. it.gate < size) }
    ensures read { IfOk result (λ it. Told (D.seen disk.old) (λ file. length file ≡ size →
        IsRead header.now it.bodies file)) }
    ensures why { OnRefused result (λ fault. Told (D.seen disk.old) (λ file. length file ≡ size →
        ¬ IsNew header.now file → IsRefused header.now fault file)) }
    ensures left { OnStopped result
        (OnlyReads D.seen D.may_leave D.moment D.left_since disk.old disk.new) }
    ensures spared { OnErr result (Told (D.seen disk.old) (λ file. length file ≡ size →
        ((bodies : List (List ℕ)) → ¬ IsRead header.now bodies file) →
        OnlyReads D.seen D.may_leave D.moment D.left_since disk.old disk.new)) }
    ensures moments { Told (D.seen disk.old) (λ file.
        IsSettled D.seen D.may_leave disk.old file → length file ≡ size →
        (bodies : List (List ℕ)) (doubt : Option (List (List ℕ))) → Holds header.now bodies doubt file →
        LeavesOnly D.moment D.left_since disk.old disk.new (HoldsAmong header.now (allowed bodies doubt))) }
    ensures tells { is_some (D.seen disk.new) ≡ is_some (D.seen disk.old) }
    ensures cause { HasFault (D.faults disk.old) (D.faults disk.new) result }
{
    let whole = read_whole(alloc, disk, size, header)?;
    repair(disk, whole.byte, whole.second, whole.gate, whole.gate_byte)?;
    Ok(whole)
}

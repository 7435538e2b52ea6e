//! The front of a file: its first byte, the mark, the chooser and the slots.
ghost use Rattle.std.specs.Prelude.{◌≡◌, ◌≢◌, ◌+◌, ◌<◌, ◌≤◌, ◌^◌, ℕ, List, Option, Some, true, false, length, slice_get, IfOk};
ghost use Rattle.nc_outside.specs.Causes.{HasCause};
ghost use Rattle.nc_outside.specs.Disks.{Told};
ghost use Rattle.nc_journal.specs.Format.{blank};
ghost use Rattle.nc_journal.specs.Files.{At, IsNew, Holds, HoldsAt};
ghost use Rattle.nc_journal.specs.Opening.{IsFront, IsRead};
ghost use Rattle.nc_journal.specs.inner.Reading.{OnlyReads};
ghost use Rattle.nc_journal.specs.inner.Faults.{OnRefused, HasFault};
ghost use Rattle.nc_journal.specs.Refusing.{IsFirstUnlike, IsRefused};

use crate::JournalFault;
use crate::places::{AREAS_BEGIN, CHOOSER, opened, slot_of};
use crate::read::{matches, number_at};
use crate::walk::byte_due;
use nc_outside::{Disk, Failed, byte_at};

/// Whether a file of this size is new. `rest` is all of a new file but its first byte.
pub(crate) fn is_new<D: Disk>(disk: &mut D, size: u64, rest: &[u8]) -> Result<bool, Failed>
    requires { 1 + length rest.now < 2 ^ 64 }
    ensures yes { IfOk result (λ it. it ≡ true → Told (D.seen disk.old) (λ file. length file ≡ size →
        (header : List ℕ) → rest.now ≡ blank header → IsNew header file)) }
    ensures no { IfOk result (λ it. it ≡ false → Told (D.seen disk.old) (λ file. length file ≡ size →
        (header : List ℕ) → rest.now ≡ blank header → ¬ IsNew header file)) }
    ensures only_reads { OnlyReads D.seen D.may_leave D.moment D.left_since disk.old disk.new }
    ensures cause { HasCause (D.faults disk.old) (D.faults disk.new) result }
{
    if size <= 1 {
        return Ok(true);
    }
    let Some(first) = byte_at(disk, 0)? else {
        return Ok(false);
    };
    if first == 0 {
        return Ok(true);
    }
    if first == 1 {
        return Ok(false);
    }
    if size != 1 + rest.len() as u64 {
        return Ok(false);
    }
    matches(disk, 1, rest)
}

// Whether a byte stands at a place.
fn is_byte<D: Disk>(disk: &mut D, at: u64, byte: u8) -> Result<bool, Failed>
    ensures yes { IfOk result (λ it. it ≡ true → Told (D.seen disk.old) (λ file.
        slice_get file at ≡ Some byte)) }
    ensures no { IfOk result (λ it. it ≡ false → Told (D.seen disk.old) (λ file.
        slice_get file at ≢ Some byte)) }
    ensures only_reads { OnlyReads D.seen D.may_leave D.moment D.left_since disk.old disk.new }
    ensures cause { HasCause (D.faults disk.old) (D.faults disk.new) result }
{
    match byte_at(disk, at)? {
        Some(it) => Ok(it == byte),
        None => Ok(false),
    }
}

// The byte at a place of some bytes.
fn item(bytes: &[u8], at: usize) -> u8
    requires { at < length bytes.now }
    ensures { slice_get bytes.now at ≡ Some result }
{
    bytes[at]
}

// The first place at which the front of a file is not these bytes; their number where it is.
fn first_unlike<D: Disk>(disk: &mut D, expected: &[u8]) -> Result<u64, Failed>
    ensures unlike { IfOk result (λ at. Told (D.seen disk.old) (λ file. ¬ At 0 expected.now file →
        IsFirstUnlike expected.now at file)) }
    ensures only_reads { OnlyReads D.seen D.may_leave D.moment D.left_since disk.old disk.new }
    ensures cause { HasCause (D.faults disk.old) (D.faults disk.new) result }
{
    let mut at = 0;
    while at < expected.len() {
        if !is_byte(disk, at as u64, item(expected, at))? {
            return Ok(at as u64);
        }
        at += 1;
    }
    Ok(at as u64)
}

/// The chooser as it stands, whether it chooses the second slot, and the place that the chosen slot names.
#[derive(Clone, Copy)]
pub(crate) struct Front {
    pub byte: u8,
    pub second: bool,
    pub place: u64,
}

/// The front of a file of this size that is not new.
pub(crate) fn front_of<D: Disk>(disk: &mut D, size: u64) -> Result<Front, JournalFault>
    ensures held { IfOk result (λ it. Told (D.seen disk.old) (λ file. length file ≡ size →
        (header : List ℕ) (bodies : List (List ℕ)) (doubt : Option (List (List ℕ))) →
        Holds header bodies doubt file → HoldsAt header it.second it.place bodies doubt file)) }
    ensures byte { IfOk result (λ it. Told (D.seen disk.old) (λ file. slice_get file 9 ≡ Some it.byte)) }
    ensures within { IfOk result (λ it. it.place ≤ size) }
    ensures sound { IfOk result (λ it. Told (D.seen disk.old) (λ file. length file ≡ size →
        IsFront file it.byte it.second it.place)) }
    ensures why { OnRefused result (λ fault. Told (D.seen disk.old) (λ file. length file ≡ size →
        (header : List ℕ) → ¬ IsNew header file → IsRefused header fault file)) }
    ensures only_reads { OnlyReads D.seen D.may_leave D.moment D.left_since disk.old disk.new }
    ensures cause { HasFault (D.faults disk.old) (D.faults disk.new) result }
{
    let expected = opened();
    if !matches(disk, 0, expected)? {
        let at = first_unlike(disk, expected)?;
        return Err(JournalFault::Damaged { at });
    }
    if size < AREAS_BEGIN {
        return Err(JournalFault::Damaged { at: size });
    }
    let byte = byte_due(disk, CHOOSER)?;
    let second = byte == 1;
    let slot = slot_of(second);
    let Some(place) = number_at(disk, slot)? else {
        return Err(JournalFault::Damaged { at: slot });
    };
    if place < AREAS_BEGIN || place > size {
        return Err(JournalFault::Damaged { at: slot });
    }
    Ok(Front {
        byte,
        second,
        place,
    })
}

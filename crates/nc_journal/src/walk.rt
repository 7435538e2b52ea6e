//! The records of an area are read, one after another.
ghost use Rattle.std.specs.Prelude.{◌≡◌, ◌+◌, ◌<◌, ◌≤◌, ◌^◌, ℕ, List, Option, Some, length, slice_get, IfOk};
ghost use Rattle.nc_outside.specs.Disks.{Told};
ghost use Rattle.nc_journal.specs.Files.{At};
ghost use Rattle.nc_journal.specs.Format.{recorded, gate_place};
ghost use Rattle.nc_names.specs.Limits.{body_limit};
ghost use Rattle.nc_journal.specs.Opening.{IsArea};
ghost use Rattle.nc_journal.specs.inner.Reading.{OnlyReads};
ghost use Rattle.nc_journal.specs.inner.Headers.{IsStuck};
ghost use Rattle.nc_journal.specs.inner.Faults.{OnDamaged, OnRefused, HasFault};

use crate::JournalFault;
use crate::read::{fill, number_at};
use nc_names::{BODY_LIMIT, Bytes, Many, Memory};
use nc_outside::{Disk, byte_at};
use std::alloc::Global;

/// The byte at a place.
pub(crate) fn byte_due<D: Disk>(disk: &mut D, at: u64) -> Result<u8, JournalFault>
    ensures byte { IfOk result (λ it. Told (D.seen disk.old) (λ file. slice_get file at ≡ Some it)) }
    ensures none { OnDamaged result (Told (D.seen disk.old) (λ file. length file ≤ at)) }
    ensures place { OnRefused result (λ fault. fault ≡ JournalFault.Damaged at) }
    ensures only_reads { OnlyReads D.seen D.may_leave D.moment D.left_since disk.old disk.new }
    ensures cause { HasFault (D.faults disk.old) (D.faults disk.new) result }
{
    match byte_at(disk, at)? {
        Some(byte) => Ok(byte),
        None => Err(JournalFault::Damaged { at }),
    }
}

// So many bytes 00.
fn zeros(alloc: Global, count: usize) -> Result<Vec<u8>, Memory>
    ensures { IfOk result (λ it. length it.items ≡ count) }
{
    Ok(vec![in alloc; 0u8; count]?)
}

// So many bytes at a place.
fn bytes_at<D: Disk>(
    alloc: Global,
    disk: &mut D,
    at: u64,
    count: usize,
    gate: u64,
) -> Result<Bytes, JournalFault>
    requires { at + count < 2 ^ 64 }
    ensures bytes { IfOk result (λ it. (length it ≡ count) × Told (D.seen disk.old) (At at it)) }
    ensures none { OnDamaged result (Told (D.seen disk.old) (λ file. length file < at + count)) }
    ensures place { OnRefused result (λ fault. fault ≡ JournalFault.Damaged gate) }
    ensures only_reads { OnlyReads D.seen D.may_leave D.moment D.left_since disk.old disk.new }
    ensures cause { HasFault (D.faults disk.old) (D.faults disk.new) result }
{
    let mut bytes = zeros(alloc, count)?;
    if !fill(disk, at, &mut bytes)? {
        return Err(JournalFault::Damaged { at: gate });
    }
    Ok(Bytes::from_vec(bytes))
}

// The body of the record whose open gate stands at a place, in a file of this size.
fn record_at<D: Disk>(
    alloc: Global,
    disk: &mut D,
    at: u64,
    size: u64,
) -> Result<Bytes, JournalFault>
    ensures within { IfOk result (λ it. at + 9 + length it ≤ size) }
    ensures body { IfOk result (λ it. Told (D.seen disk.old) (λ file. (body : List ℕ) →
        length body ≤ body_limit → At at (recorded body) file → it ≡ body)) }
    ensures sound { IfOk result (λ it. Told (D.seen disk.old) (λ file. slice_get file at ≡ Some 1 →
        At at (recorded it) file × (length it ≤ body_limit))) }
    ensures none { OnDamaged result (Told (D.seen disk.old) (λ file. length file ≡ size → (body : List ℕ) →
        length body ≤ body_limit → ¬ At at (recorded body) file)) }
    ensures place { OnRefused result (λ fault. fault ≡ JournalFault.Damaged at) }
    ensures only_reads { OnlyReads D.seen D.may_leave D.moment D.left_since disk.old disk.new }
    ensures cause { HasFault (D.faults disk.old) (D.faults disk.new) result }
{
    if at > size || size - at < 9 {
        return Err(JournalFault::Damaged { at });
    }
    let Some(count) = number_at(disk, at + 1)? else {
        return Err(JournalFault::Damaged { at });
    };
    if count > BODY_LIMIT || count > size - at - 9 {
        return Err(JournalFault::Damaged { at });
    }
    bytes_at(alloc, disk, at + 9, count as usize, at)
}

// The byte at a place where a gate is due, in a file of this size.
fn gate_due<D: Disk>(disk: &mut D, at: u64, size: u64) -> Result<u8, JournalFault>
    ensures byte { IfOk result (λ it. Told (D.seen disk.old) (λ file. slice_get file at ≡ Some it)) }
    ensures within { IfOk result (λ it. at < size) }
    ensures none { OnDamaged result (Told (D.seen disk.old) (λ file. length file ≡ size → length file ≤ at)) }
    ensures place { OnRefused result (λ fault. fault ≡ JournalFault.Damaged at) }
    ensures only_reads { OnlyReads D.seen D.may_leave D.moment D.left_since disk.old disk.new }
    ensures cause { HasFault (D.faults disk.old) (D.faults disk.new) result }
{
    if at >= size {
        return Err(JournalFault::Damaged { at });
    }
    byte_due(disk, at)
}

/// What was read of an area: the place of its last gate, that gate, and its bodies.
#[derive(Drop)]
pub(crate) struct Walked {
    pub gate: u64,
    pub byte: u8,
    pub bodies: Many<Bytes>,
}

/// The bodies of an area, whose first gate stands at a place, in a file of this size.
pub(crate) fn walk<D: Disk>(
    alloc: Global,
    disk: &mut D,
    start: u64,
    size: u64,
) -> Result<Walked, JournalFault>
    ensures read { IfOk result (λ it. Told (D.seen disk.old) (λ file. length file ≡ size →
        (header : List ℕ) (place : ℕ) (bodies : List (List ℕ)) (gate : ℕ) →
        IsArea header place bodies gate file → start ≡ place + length header →
        (it.bodies ≡ bodies) × (it.gate ≡ gate_place header bodies place) × (it.byte ≡ gate))) }
    ensures byte { IfOk result (λ it. Told (D.seen disk.old) (λ file.
        slice_get file it.gate ≡ Some it.byte)) }
    ensures sound { IfOk result (λ it. Told (D.seen disk.old) (λ file. (header : List ℕ) (place : ℕ) →
        start ≡ place + length header → At place header file →
        IsArea header place it.bodies it.byte file)) }
    ensures within { IfOk result (λ it. it.gate < size) }
    ensures why { OnRefused result (λ fault. Told (D.seen disk.old) (λ file. length file ≡ size →
        (header : List ℕ) (place : ℕ) → start ≡ place + length header → At place header file →
        IsStuck header place fault file)) }
    ensures only_reads { OnlyReads D.seen D.may_leave D.moment D.left_since disk.old disk.new }
    ensures cause { HasFault (D.faults disk.old) (D.faults disk.new) result }
{
    let mut bodies = Many::new(alloc);
    let mut at = start;
    let mut byte = gate_due(disk, at, size)?;
    while byte == 1 {
        let body = record_at(alloc, disk, at, size)?;
        at += 9 + body.len() as u64;
        bodies.push(body)?;
        byte = gate_due(disk, at, size)?;
    }
    Ok(Walked {
        gate: at,
        byte,
        bodies,
    })
}

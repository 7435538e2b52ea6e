//! What stands at a place of a file.
ghost use Rattle.std.specs.Prelude.{◌≡◌, ◌↔◌, IsTrue, ◌+◌, ◌-◌, ◌<◌, ◌≤◌, ◌^◌, ℕ, List, Option, Some, None, true, false, length, take, drop, IfOk, IfSome};
ghost use Rattle.nc_outside.specs.Causes.{HasCause};
ghost use Rattle.nc_outside.specs.Disks.{Told};
ghost use Rattle.nc_journal.specs.Files.{At};
ghost use Rattle.nc_journal.specs.Format.{number};
ghost use Rattle.nc_journal.specs.Header.{short_number};
ghost use Rattle.nc_journal.specs.inner.Reading.{OnlyReads};

use nc_outside::{Disk, Failed};

/// How many bytes are compared at once.
const PIECE: usize = 512;

// Reads into a buffer after what was read already.
fn read_rest<D: Disk>(disk: &mut D, at: u64, into: &mut [u8], done: usize) -> Result<usize, Failed>
    requires room { at + length into.old < 2 ^ 64 }
    requires done { done ≤ length into.old }
    ensures within { IfOk result (λ n. done + n ≤ length into.old) }
    ensures front { take done into.new ≡ take done into.old }
    ensures bytes { IfOk result (λ n. Told (D.seen disk.old) (λ file.
        take n (drop done into.new) ≡ take n (drop (at + done) file))) }
    ensures some { IfOk result (λ n. Told (D.seen disk.old) (λ file.
        (n ≤ length file - (at + done)) × (at + done < length file → done < length into.old → 0 < n))) }
    ensures only_reads { OnlyReads D.seen D.may_leave D.moment D.left_since disk.old disk.new }
    ensures cause { HasCause (D.faults disk.old) (D.faults disk.new) result }
{
    disk.read(at + done as u64, &mut into[done..])
}

/// Fills a buffer with what stands at a place, and tells whether there was so much.
pub(crate) fn fill<D: Disk>(disk: &mut D, at: u64, into: &mut [u8]) -> Result<bool, Failed>
    requires { at + length into.old < 2 ^ 64 }
    ensures whole { IfOk result (λ it. it ≡ true → Told (D.seen disk.old) (λ file.
        At at into.new file × (0 < length into.old → at + length into.old ≤ length file))) }
    ensures short { IfOk result (λ it. it ≡ false → Told (D.seen disk.old) (λ file.
        length file < at + length into.old)) }
    ensures only_reads { OnlyReads D.seen D.may_leave D.moment D.left_since disk.old disk.new }
    ensures cause { HasCause (D.faults disk.old) (D.faults disk.new) result }
{
    let mut done = 0;
    while done < into.len() {
        let count = read_rest(disk, at, into, done)?;
        if count == 0 {
            return Ok(false);
        }
        done += count;
    }
    Ok(true)
}

// The number in eight bytes, the highest first.
fn number_in(bytes: &[u8; 8]) -> u64
    ensures { number result ≡ bytes.now }
{
    u64::from_be_bytes(*bytes)
}

/// The number that stands in eight bytes at a place.
pub(crate) fn number_at<D: Disk>(disk: &mut D, at: u64) -> Result<Option<u64>, Failed>
    requires { at + 8 < 2 ^ 64 }
    ensures number { IfOk result (λ it. Told (D.seen disk.old) (λ file.
        (n : ℕ) → n < 2 ^ 64 → At at (number n) file → it ≡ Some n)) }
    ensures sound { IfOk result (λ it. IfSome it (λ n. Told (D.seen disk.old) (At at (number n)))) }
    ensures short { IfOk result (λ it. it ≡ None → Told (D.seen disk.old) (λ file. length file < at + 8)) }
    ensures only_reads { OnlyReads D.seen D.may_leave D.moment D.left_since disk.old disk.new }
    ensures cause { HasCause (D.faults disk.old) (D.faults disk.new) result }
{
    let mut bytes = [0u8; 8];
    if !fill(disk, at, &mut bytes)? {
        return Ok(None);
    }
    Ok(Some(number_in(&bytes)))
}

/// The number in four bytes, the highest first.
pub(crate) fn short_number_in(bytes: &[u8; 4]) -> u32
    ensures { short_number result ≡ bytes.now }
{
    u32::from_be_bytes(*bytes)
}

/// The number that stands in four bytes at a place, or `None` where the file ends before.
pub(crate) fn short_number_at<D: Disk>(disk: &mut D, at: u64) -> Result<Option<u32>, Failed>
    requires { at + 4 < 2 ^ 64 }
    ensures short { IfOk result (λ it. it ≡ None → Told (D.seen disk.old) (λ file. length file < at + 4)) }
    ensures sound { IfOk result (λ it. IfSome it (λ n. Told (D.seen disk.old) (At at (short_number n)))) }
    ensures only_reads { OnlyReads D.seen D.may_leave D.moment D.left_since disk.old disk.new }
    ensures cause { HasCause (D.faults disk.old) (D.faults disk.new) result }
{
    let mut bytes = [0u8; 4];
    if !fill(disk, at, &mut bytes)? {
        return Ok(None);
    }
    Ok(Some(short_number_in(&bytes)))
}

/// Whether these bytes stand at a place. It reads in pieces.
pub(crate) fn matches<D: Disk>(disk: &mut D, at: u64, expected: &[u8]) -> Result<bool, Failed>
    requires { at + length expected.now < 2 ^ 64 }
    ensures same { IfOk result (λ it. it ≡ true → Told (D.seen disk.old) (At at expected.now)) }
    ensures other { IfOk result (λ it. it ≡ false → Told (D.seen disk.old) (λ file.
        ¬ At at expected.now file)) }
    ensures only_reads { OnlyReads D.seen D.may_leave D.moment D.left_since disk.old disk.new }
    ensures cause { HasCause (D.faults disk.old) (D.faults disk.new) result }
{
    let mut done = 0;
    while done < expected.len() {
        let count = (expected.len() - done).min(PIECE);
        let piece = part(expected, done, count);
        if !is_piece(disk, at + done as u64, piece)? {
            return Ok(false);
        }
        done += count;
    }
    Ok(true)
}

// The same for a piece.
fn is_piece<D: Disk>(disk: &mut D, at: u64, expected: &[u8]) -> Result<bool, Failed>
    requires room { at + length expected.now < 2 ^ 64 }
    requires short { length expected.now ≤ 512 }
    requires some { 0 < length expected.now }
    ensures same { IfOk result (λ it. it ≡ true → Told (D.seen disk.old) (At at expected.now)) }
    ensures other { IfOk result (λ it. it ≡ false → Told (D.seen disk.old) (λ file.
        ¬ At at expected.now file)) }
    ensures only_reads { OnlyReads D.seen D.may_leave D.moment D.left_since disk.old disk.new }
    ensures cause { HasCause (D.faults disk.old) (D.faults disk.new) result }
{
    let mut piece = [0u8; PIECE];
    let count = expected.len();
    if !fill(disk, at, &mut piece[..count])? {
        return Ok(false);
    }
    Ok(same_bytes(&piece[..count], expected))
}

fn same_bytes(a: &[u8], b: &[u8]) -> bool
    ensures { IsTrue result ↔ (a.now ≡ b.now) }
{
    a == b
}

/// A part of some bytes.
pub(crate) fn part(bytes: &[u8], from: usize, count: usize) -> &[u8]
    requires { from + count ≤ length bytes.now }
    ensures { result.now ≡ take count (drop from bytes.now) }
{
    &bytes[from..from + count]
}

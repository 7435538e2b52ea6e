//! The header of an area that is not ours: whether one stands there, and where it differs from ours.
ghost use Rattle.std.specs.Prelude.{◌≡◌, ◌+◌, ◌<◌, ◌≤◌, ◌^◌, ℕ, List, true, false, length, All, IfOk};
ghost use Rattle.std.specs.List.{flat_map};
ghost use Rattle.nc_outside.specs.Causes.{HasCause};
ghost use Rattle.nc_outside.specs.Disks.{Told};
ghost use Rattle.nc_journal.specs.Files.{At};
ghost use Rattle.nc_journal.specs.Header.{short_number, counted, IsHeader, HasHeader, DiffersAt};
ghost use Rattle.nc_journal.specs.inner.Reading.{OnlyReads};
ghost use Rattle.nc_journal.specs.inner.Headers.{HasCounted, HasModules, HasFeatures, HasHeaderOf, HasOther, TellsDamage};
ghost use Rattle.nc_journal.specs.inner.Faults.{OnRefused, HasFault};

use crate::JournalFault;
use crate::read::{matches, number_at, part, short_number_at, short_number_in};
use nc_outside::{Disk, Failed};

/// Whether our header stands at a place, in a file of this size.
pub(crate) fn is_ours<D: Disk>(
    disk: &mut D,
    place: u64,
    size: u64,
    header: &[u8],
) -> Result<bool, Failed>
    requires { place ≤ size }
    ensures ours { IfOk result (λ it. it ≡ true → (place + length header.now ≤ size) ×
        Told (D.seen disk.old) (At place header.now)) }
    ensures other { IfOk result (λ it. it ≡ false → Told (D.seen disk.old) (λ file. length file ≡ size →
        place + length header.now ≤ length file → ¬ At place header.now file)) }
    ensures only_reads { OnlyReads D.seen D.may_leave D.moment D.left_since disk.old disk.new }
    ensures cause { HasCause (D.faults disk.old) (D.faults disk.new) result }
{
    if header.len() as u64 > size - place {
        return Ok(false);
    }
    matches(disk, place, header)
}

// The end of a text with its length that stands at a place, in a file of this size.
fn counted_end<D: Disk>(disk: &mut D, at: u64, size: u64) -> Result<u64, JournalFault>
    requires { at ≤ size }
    ensures within { IfOk result (λ end. end ≤ size) }
    ensures sound { IfOk result (λ end. Told (D.seen disk.old) (λ file. length file ≡ size →
        HasCounted at end file)) }
    ensures none { OnRefused result (TellsDamage (D.seen disk.old) size (λ file. length file ≡ size →
        (text : List ℕ) → length text < 2 ^ 32 → ¬ At at (counted text) file)) }
    ensures only_reads { OnlyReads D.seen D.may_leave D.moment D.left_since disk.old disk.new }
    ensures cause { HasFault (D.faults disk.old) (D.faults disk.new) result }
{
    if size - at < 4 {
        return Err(JournalFault::Damaged { at: size });
    }
    let Some(count) = short_number_at(disk, at)? else {
        return Err(JournalFault::Damaged { at: size });
    };
    if count as u64 > size - at - 4 {
        return Err(JournalFault::Damaged { at: size });
    }
    Ok(at + 4 + count as u64)
}

// The end of so many texts with their lengths that stand at a place, in a file of this size.
fn modules_end<D: Disk>(disk: &mut D, at: u64, count: u32, size: u64) -> Result<u64, JournalFault>
    requires { at ≤ size }
    ensures within { IfOk result (λ end. end ≤ size) }
    ensures sound { IfOk result (λ end. Told (D.seen disk.old) (λ file. length file ≡ size →
        HasModules at count end file)) }
    ensures none { OnRefused result (TellsDamage (D.seen disk.old) size (λ file. length file ≡ size →
        (modules : List (List ℕ)) → length modules ≡ count → All (λ text. length text < 2 ^ 32) modules →
        ¬ At at (flat_map counted modules) file)) }
    ensures only_reads { OnlyReads D.seen D.may_leave D.moment D.left_since disk.old disk.new }
    ensures cause { HasFault (D.faults disk.old) (D.faults disk.new) result }
{
    let mut end = at;
    let mut done = 0;
    while done < count {
        end = counted_end(disk, end, size)?;
        done += 1;
    }
    Ok(end)
}

// Sees that the features of a header stand at a place, in a file of this size.
fn features_at<D: Disk>(disk: &mut D, at: u64, size: u64) -> Result<(), JournalFault>
    requires { at ≤ size }
    ensures sound { IfOk result (λ _. Told (D.seen disk.old) (λ file. length file ≡ size →
        HasFeatures at file)) }
    ensures none { OnRefused result (TellsDamage (D.seen disk.old) size (λ file. length file ≡ size →
        ¬ HasFeatures at file)) }
    ensures only_reads { OnlyReads D.seen D.may_leave D.moment D.left_since disk.old disk.new }
    ensures cause { HasFault (D.faults disk.old) (D.faults disk.new) result }
{
    if size - at < 8 {
        return Err(JournalFault::Damaged { at: size });
    }
    let Some(count) = number_at(disk, at)? else {
        return Err(JournalFault::Damaged { at: size });
    };
    if count > size - at - 8 {
        return Err(JournalFault::Damaged { at: size });
    }
    Ok(())
}

// The number of modules of the header that stands at a place, in a file of this size.
fn modules_of<D: Disk>(disk: &mut D, place: u64, size: u64) -> Result<u32, JournalFault>
    requires { place ≤ size }
    ensures sound { IfOk result (λ count. Told (D.seen disk.old) (λ file. length file ≡ size →
        HasHeaderOf place count file)) }
    ensures none { OnRefused result (TellsDamage (D.seen disk.old) size (λ file. length file ≡ size →
        ¬ HasHeader place file)) }
    ensures only_reads { OnlyReads D.seen D.may_leave D.moment D.left_since disk.old disk.new }
    ensures cause { HasFault (D.faults disk.old) (D.faults disk.new) result }
{
    if size - place < 4 {
        return Err(JournalFault::Damaged { at: size });
    }
    let Some(count) = short_number_at(disk, place)? else {
        return Err(JournalFault::Damaged { at: size });
    };
    let end = modules_end(disk, place + 4, count, size)?;
    features_at(disk, end, size)?;
    Ok(count)
}

// The number that stands in four bytes at a place of some bytes.
fn short_number_of(bytes: &[u8], from: usize) -> u32
    requires { from + 4 ≤ length bytes.now }
    ensures { At from (short_number result) bytes.now }
{
    let mut four = [0u8; 4];
    four.copy_from_slice(part(bytes, from, 4));
    short_number_in(&four)
}

// The text that stands with its length at a place of some bytes: its length, and the text.
fn counted_in(bytes: &[u8], from: usize) -> &[u8]
    requires { (text : List ℕ) × (length text < 2 ^ 32) × At from (counted text) bytes.now }
    ensures { (text : List ℕ) → length text < 2 ^ 32 → At from (counted text) bytes.now →
        result.now ≡ counted text }
{
    let count = short_number_of(bytes, from);
    part(bytes, from, 4 + count as usize)
}

// How many modules our header and the one at a place, of so many modules, have in common at their fronts.
fn common<D: Disk>(disk: &mut D, place: u64, count: u32, header: &[u8]) -> Result<u64, Failed>
    requires ours { (modules : List (List ℕ)) × (features : List ℕ) × IsHeader modules features header.now }
    requires room { place + length header.now < 2 ^ 64 }
    ensures differs { IfOk result (λ it. Told (D.seen disk.old) (λ file.
        (ours : List (List ℕ)) (features : List ℕ) → IsHeader ours features header.now →
        (theirs : HasHeader place file) → length theirs.modules ≡ count → DiffersAt ours theirs.modules it)) }
    ensures only_reads { OnlyReads D.seen D.may_leave D.moment D.left_since disk.old disk.new }
    ensures cause { HasCause (D.faults disk.old) (D.faults disk.new) result }
{
    let most = short_number_of(header, 0).min(count);
    let mut from = 4;
    let mut done = 0;
    while done < most {
        let text = counted_in(header, from);
        if !matches(disk, place + from as u64, text)? {
            return Ok(done as u64);
        }
        from += text.len();
        done += 1;
    }
    Ok(done as u64)
}

/// The number of the first module in which the header that stands at a place differs from ours, or the number
/// of modules where only the features do. The file has this size.
pub(crate) fn first_other<D: Disk>(
    disk: &mut D,
    place: u64,
    size: u64,
    header: &[u8],
) -> Result<u64, JournalFault>
    requires place { place ≤ size }
    requires room { place + length header.now < 2 ^ 64 }
    requires ours { (modules : List (List ℕ)) × (features : List ℕ) × IsHeader modules features header.now }
    ensures other { IfOk result (λ it. Told (D.seen disk.old) (λ file. length file ≡ size →
        HasOther header.now place it file)) }
    ensures none { OnRefused result (TellsDamage (D.seen disk.old) size (λ file. length file ≡ size →
        ¬ HasHeader place file)) }
    ensures only_reads { OnlyReads D.seen D.may_leave D.moment D.left_since disk.old disk.new }
    ensures cause { HasFault (D.faults disk.old) (D.faults disk.new) result }
{
    let count = modules_of(disk, place, size)?;
    Ok(common(disk, place, count, header)?)
}

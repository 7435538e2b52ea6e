//! A file is opened.
ghost use Rattle.std.specs.Prelude.{◌≡◌, ◌+◌, ◌<◌, ◌^◌, [], ℕ, List, Option, is_some, IfOk, OnErr};
ghost use Rattle.nc_outside.specs.Disks.{Told, LeavesOnly};
ghost use Rattle.nc_journal.specs.Files.{IsNew, Holds};
ghost use Rattle.nc_journal.specs.Journal.{allowed};
ghost use Rattle.nc_journal.specs.Opening.{IsRead, Opens, StartsAmong, StartsFresh};
ghost use Rattle.nc_journal.specs.inner.Reading.{IsOpened, OnlyReads};
ghost use Rattle.nc_journal.specs.inner.Faults.{OnRefused, OnStopped, HasFault};
ghost use Rattle.nc_journal.specs.Header.{IsHeader};
ghost use Rattle.nc_journal.specs.Refusing.{HasNoReading, IsRefused};

use crate::JournalFault;
use crate::blank::blank_of;
use crate::front::is_new;
use crate::making::make;
use crate::places::AREAS_BEGIN;
use crate::whole::{Whole, mend};
use nc_names::Many;
use nc_outside::{Disk, settle};
use std::alloc::Global;

/// Opens a file, and makes one where it is new.
pub(crate) fn open<D: Disk>(
    alloc: Global,
    disk: &mut D,
    header: &[u8],
) -> Result<Whole, JournalFault>
    requires { (modules : List (List ℕ)) × (features : List ℕ) × IsHeader modules features header.now }
    ensures fresh { IfOk result (λ it. Told (D.seen disk.old) (λ file. IsNew header.now file →
        (it.bodies ≡ []) × IsOpened D.may_leave header.now [] it.second it.start it.gate disk.new)) }
    ensures held { IfOk result (λ it. Told (D.seen disk.old) (λ file.
        (bodies : List (List ℕ)) (doubt : Option (List (List ℕ))) → Holds header.now bodies doubt file →
        (it.bodies ≡ bodies) × IsOpened D.may_leave header.now bodies it.second it.start it.gate disk.new)) }
    ensures opened { IfOk result (λ it. Told (D.seen disk.old) (λ _.
        IsOpened D.may_leave header.now it.bodies it.second it.start it.gate disk.new)) }
    ensures fits { IfOk result (λ it. it.gate + 1 < 2 ^ 64) }
    ensures read { IfOk result (λ it. Told (D.seen disk.old) (Opens header.now it.bodies)) }
    ensures why { OnRefused result (λ fault. Told (D.seen disk.old) (IsRefused header.now fault)) }
    ensures left { OnStopped result
        (OnlyReads D.seen D.may_leave D.moment D.left_since disk.old disk.new) }
    ensures spared { OnErr result (Told (D.seen disk.old) (λ file. HasNoReading header.now file →
        OnlyReads D.seen D.may_leave D.moment D.left_since disk.old disk.new)) }
    ensures moments_fresh { Told (D.seen disk.old) (λ file. IsNew header.now file →
        LeavesOnly D.moment D.left_since disk.old disk.new (StartsFresh D.may_leave disk.old header.now)) }
    ensures moments_held { Told (D.seen disk.old) (λ file.
        (bodies : List (List ℕ)) (doubt : Option (List (List ℕ))) → Holds header.now bodies doubt file →
        LeavesOnly D.moment D.left_since disk.old disk.new
        (StartsAmong D.may_leave disk.old header.now (allowed bodies doubt))) }
    ensures tells { is_some (D.seen disk.new) ≡ is_some (D.seen disk.old) }
    ensures cause { HasFault (D.faults disk.old) (D.faults disk.new) result }
{
    let rest = blank_of(alloc, header)?;
    let size = settle(disk)?;
    if !is_new(disk, size, rest.as_slice())? {
        return mend(alloc, disk, size, header);
    }
    make(disk, size, rest.as_slice())?;
    let gate = AREAS_BEGIN + header.len() as u64;
    Ok(Whole {
        byte: 0,
        second: false,
        start: AREAS_BEGIN,
        gate,
        gate_byte: 0,
        bodies: Many::new(alloc),
    })
}

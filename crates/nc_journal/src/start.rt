//! A journal is begun over a disk.
ghost use Rattle.std.specs.Prelude.{◌≡◌, ◌≢◌, ℕ, List, is_some, IfOk, IfErr};
ghost use Rattle.nc_names.specs.Counts.{Rose};
ghost use Rattle.nc_outside.specs.Disks.{Told};
ghost use Rattle.nc_journal.specs.Header.{IsHeader};
ghost use Rattle.nc_journal.specs.Refusing.{IsRefused, IsLeftAlone};

use crate::open::open;
use crate::{Journal, JournalFault};
use nc_names::{Bytes, Many};
use nc_outside::Disk;
use std::alloc::Global;

impl<D: Disk> Journal<D> {
    ghost use Rattle.nc_journal.specs.Beginning.{HasBegun, BeginsSafely};
    ghost use Rattle.nc_journal.specs.Journal.{disk_of};

    /// Opens the file of a disk, and gives the bodies of its live area. A new file is made, without a body.
    ///
    /// # Errors
    ///
    /// The disk is handed back with the fault: `DiskFault` where a call of it failed, `Damaged` and
    /// `OtherHeader` where the file has no reading with this header, `Memory` where no memory was found. A
    /// file without a reading is left as it was whatever the fault is, and any file but where the disk
    /// failed.
    pub fn begin(
        alloc: Global,
        disk: D,
        header: &[u8],
    ) -> Result<(Journal<D>, Many<Bytes>), (D, JournalFault)>
        requires { (modules : List (List ℕ)) × (features : List ℕ) × IsHeader modules features header.now }
        ensures begun { IfOk result (λ it. Told (D.seen disk)
            (HasBegun D.seen D.may_leave header.now it.0 it.1)) }
        // The fault tells why a file is refused, and the place; the file is left as it was.
        ensures refused { IfErr result (λ it. Told (D.seen disk) (IsRefused header.now it.1) ×
            IsLeftAlone header.now D.seen D.may_leave D.moment D.left_since it.1 disk it.0) }
        ensures moments { Told (D.seen disk) (λ file.
            IfOk result (λ it.
            BeginsSafely D.may_leave D.moment D.left_since header.now disk (disk_of it.0) file) ×
            IfErr result (λ it. BeginsSafely D.may_leave D.moment D.left_since header.now disk it.0 file)) }
        ensures tells { IfOk result (λ it. is_some (D.seen (disk_of it.0)) ≡ is_some (D.seen disk)) ×
            IfErr result (λ it. is_some (D.seen it.0) ≡ is_some (D.seen disk)) }
        ensures cause { IfOk result (λ it. D.faults (disk_of it.0) ≡ D.faults disk) ×
            IfErr result (λ it. it.1 ≡ JournalFault.DiskFault → Rose (D.faults disk) (D.faults it.0)) }
        // A fault of the disk goes before all others.
        ensures unfailed { IfErr result (λ it. it.1 ≢ JournalFault.DiskFault →
            D.faults it.0 ≡ D.faults disk) }
    {
        let mut disk = disk;
        match open(alloc, &mut disk, header) {
            Ok(whole) => {
                let records = whole.bodies.len() as u64;
                let journal = Journal {
                    disk,
                    second: whole.second,
                    start: whole.start,
                    gate: whole.gate,
                    undo: None,
                    records,
                };
                Ok((journal, whole.bodies))
            }
            Err(fault) => Err((disk, fault)),
        }
    }
}

//! One call of a disk fails, and each step is tried once more.
ghost use Rattle.std.specs.Prelude.{◌≤◌, ℕ, List, length};
ghost use Rattle.nc_names.specs.Limits.{body_limit};
ghost use Rattle.nc_outside.specs.Disks.{Told};
ghost use Rattle.nc_journal.specs.Header.{IsHeader};
ghost use Rattle.nc_journal.specs.Journal.{IsSound};

use crate::steps::{add, header, shown, swap};
use nc_journal::{Journal, Kept};
use nc_memdisk::MemDisk;
use nc_names::{Bytes, Many, Memory};
use nc_outside::Disk;
use std::alloc::Global;
use std::test::Fail;

// Appends a body, and once more where the disk failed.
fn add_twice<D: Disk>(alloc: Global, journal: &mut Journal<D>, body: &[u8]) -> Result<(), Memory>
    requires sound { (header : List ℕ) ×
        Told (D.seen journal.old.disk) (λ file. IsSound D.seen D.may_leave header journal.old) }
    requires small { length body.now ≤ body_limit }
    ensures { (header : List ℕ) →
        Told (D.seen journal.old.disk) (λ file. IsSound D.seen D.may_leave header journal.old) →
        Told (D.seen journal.new.disk) (λ file. IsSound D.seen D.may_leave header journal.new) }
{
    if add(alloc, journal, body)? != Kept::Kept {
        add(alloc, journal, body)?;
    }
    Ok(())
}

// Opens a new file, appends two bodies, and puts an area in their place.
fn run(alloc: Global, disk: MemDisk, header: &[u8]) -> Result<MemDisk, Memory>
    requires { (modules : List (List ℕ)) × (features : List ℕ) × IsHeader modules features header.now }
{
    let mut journal = match Journal::begin(alloc, disk, header) {
        Ok((journal, _)) => journal,
        Err((disk, _)) => return Ok(disk),
    };
    add_twice(alloc, &mut journal, b"a")?;
    add_twice(alloc, &mut journal, b"bb")?;
    if swap(alloc, &mut journal, header, b"c")? != Kept::Kept {
        swap(alloc, &mut journal, header, b"c")?;
    }
    Ok(journal.finish())
}

// The bodies that a pick leaves where one call fails.
fn left(alloc: Global, failing: u64, pick: u32) -> Result<Option<Bytes>, Memory> {
    let mut disk = MemDisk::new(Bytes::new(alloc));
    let mut numbers = Many::new(alloc);
    numbers.push(failing)?;
    disk.fail_calls(numbers);
    let image = run(alloc, disk, header())?.after_stop(pick.min(4))?;
    shown(alloc, image)
}

fn is_last(bodies: &Option<Bytes>) -> bool {
    match bodies {
        Some(bodies) => bodies.as_slice() == b"c ".as_slice(),
        None => false,
    }
}

// Opening a new file takes eight calls.
#[test]
fn one_fault_loses_nothing(rt: HostRuntime) -> Result<(), Fail> {
    let alloc = rt.alloc();
    for failing in 9..30 {
        for pick in 0..5 {
            let bodies = left(alloc, failing, pick)?;
            assert!(rt; is_last(&bodies), "call {failing}, pick {pick}");
        }
    }
    Ok(())
}

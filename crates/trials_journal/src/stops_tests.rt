//! A journal is opened, two bodies are appended, and an area takes their place. The disk stops after each
//! call, and what each pick leaves is opened.
ghost use Rattle.std.specs.Prelude.{ℕ, List};
ghost use Rattle.nc_journal.specs.Header.{IsHeader};

use crate::steps::{add, header, shown, swap};
use nc_journal::{Journal, Kept};
use nc_memdisk::MemDisk;
use nc_names::{Bytes, Memory};
use std::alloc::Global;
use std::test::Fail;

// What a run left, and how many of its steps were answered with `Kept`.
#[derive(Drop)]
struct Left {
    disk: MemDisk,
    steps: usize,
}

// Opens a new file, appends `a` and `bb`, and puts an area with `c` in their place. It ends at the first step
// that fails.
fn run(alloc: Global, disk: MemDisk, header: &[u8]) -> Result<Left, Memory>
    requires { (modules : List (List ℕ)) × (features : List ℕ) × IsHeader modules features header.now }
{
    let mut journal = match Journal::begin(alloc, disk, header) {
        Ok((journal, _)) => journal,
        Err((disk, _)) => return Ok(Left { disk, steps: 0 }),
    };
    if add(alloc, &mut journal, b"a")? != Kept::Kept {
        return Ok(Left {
            disk: journal.finish(),
            steps: 0,
        });
    }
    if add(alloc, &mut journal, b"bb")? != Kept::Kept {
        return Ok(Left {
            disk: journal.finish(),
            steps: 1,
        });
    }
    if swap(alloc, &mut journal, header, b"c")? != Kept::Kept {
        return Ok(Left {
            disk: journal.finish(),
            steps: 2,
        });
    }
    Ok(Left {
        disk: journal.finish(),
        steps: 3,
    })
}

// The bodies that a file may hold after so many steps: those before, and those after the next.
const BEFORE: &[&[u8]] = &[b"", b"a ", b"a bb ", b"c "];

const AFTER: &[&[u8]] = &[b"a ", b"a bb ", b"c ", b"c "];

fn is_one_of(bodies: &[u8], steps: usize) -> bool {
    match (BEFORE.get(steps), AFTER.get(steps)) {
        (Some(before), Some(after)) => bodies == *before || bodies == *after,
        _ => false,
    }
}

// A new file on a disk that stops after so many calls.
fn stopped(alloc: Global, last: u64) -> Result<Left, Memory> {
    let mut disk = MemDisk::new(Bytes::new(alloc));
    disk.stop_after(last);
    run(alloc, disk, header())
}

// Whether what a pick leaves opens to the bodies before or after.
fn survives(alloc: Global, left: &Left, pick: u32) -> Result<bool, Memory> {
    if pick > 4 {
        return Ok(false);
    }
    let image = left.disk.after_stop(pick)?;
    match shown(alloc, image)? {
        Some(bodies) => Ok(is_one_of(bodies.as_slice(), left.steps)),
        None => Ok(false),
    }
}

// The last of these stops comes after all calls.
#[test]
fn each_stop_leaves_the_bodies_before_or_after(rt: HostRuntime) -> Result<(), Fail> {
    let alloc = rt.alloc();
    for last in 0..40 {
        let left = stopped(alloc, last)?;
        assert!(rt; last < 39 || left.steps == 3, "stop {last}");
        for pick in 0..5 {
            assert!(rt; survives(alloc, &left, pick)?, "stop {last}, pick {pick}");
        }
    }
    Ok(())
}

// A disk after its file was opened, or after the opening failed.
fn opened(alloc: Global, disk: MemDisk) -> MemDisk {
    match Journal::begin(alloc, disk, header()) {
        Ok((journal, _)) => journal.finish(),
        Err((disk, _)) => disk,
    }
}

// What is left where what a pick leaves is opened, and the disk stops again after so many calls.
fn stopped_again(alloc: Global, left: &Left, pick: u32, last: u64) -> Result<Left, Memory> {
    let mut image = left.disk.after_stop(pick.min(4))?;
    image.stop_after(last);
    Ok(Left {
        disk: opened(alloc, image),
        steps: left.steps,
    })
}

#[test]
fn a_stop_within_the_opening_loses_nothing(rt: HostRuntime) -> Result<(), Fail> {
    let alloc = rt.alloc();
    for last in 0..40 {
        let left = stopped(alloc, last)?;
        for again in 0..24 {
            let twice = stopped_again(alloc, &left, 3, again)?;
            assert!(rt; survives(alloc, &twice, 3)?, "stop {last}, then {again}");
            assert!(rt; survives(alloc, &twice, 4)?, "stop {last}, then {again}");
        }
    }
    Ok(())
}

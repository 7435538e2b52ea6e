//! The disk against the operating system, in folders of its own below the working folder.
use nc_edge::FileDisk;
use nc_outside::Disk;
use std::{fs, io};

// An empty folder.
fn make_folder(rt: &HostRuntime, folder: &str) -> io::Result<()> {
    let _ = fs::remove_dir_all(rt, folder);
    fs::create_dir(rt, folder)
}

#[test]
fn a_file_is_written_cut_and_read(rt: HostRuntime) {
    make_folder(&rt, "nc_edge_read").expect(&rt, "a folder");
    let mut disk = FileDisk::new(rt.alloc(), rt, Some("nc_edge_read")).expect(&rt, "memory");
    assert!(rt; disk.size() == Ok(0));
    assert!(rt; disk.write_at(0, b"abcdef") == Ok(()));
    assert!(rt; disk.cut(4) == Ok(()));
    assert!(rt; disk.sync() == Ok(()));
    let mut back = [0; 8];
    assert!(rt; disk.read(1, &mut back) == Ok(3));
    assert_eq!(rt; back, *b"bcd\0\0\0\0\0");
    assert!(rt; disk.size() == Ok(4) && disk.faults() == 0);
}

#[test]
fn one_program_has_a_folder(rt: HostRuntime) {
    make_folder(&rt, "nc_edge_lock").expect(&rt, "a folder");
    let mut first = FileDisk::new(rt.alloc(), rt, Some("nc_edge_lock")).expect(&rt, "memory");
    let mut second = FileDisk::new(rt.alloc(), rt, Some("nc_edge_lock")).expect(&rt, "memory");
    assert!(rt; first.size() == Ok(0));
    assert!(rt; second.size().is_err() && second.faults() == 1);
    drop(first);
    let mut third = FileDisk::new(rt.alloc(), rt, Some("nc_edge_lock")).expect(&rt, "memory");
    assert!(rt; third.size() == Ok(0));
}

#[test]
fn without_a_file_each_call_fails(rt: HostRuntime) {
    for folder in [None, Some("nc_edge_absent")] {
        let mut disk = FileDisk::new(rt.alloc(), rt, folder).expect(&rt, "memory");
        assert!(rt; disk.size().is_err());
        assert!(rt; disk.sync().is_err() && disk.faults() == 2);
    }
}

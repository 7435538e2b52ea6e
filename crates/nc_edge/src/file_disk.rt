//! A disk that is a file of the operating system.
ghost use Rattle.std.specs.Prelude.{◌≡◌, ◌↔◌, ◌+◌, ◌≤◌, length, IfOk, IsTrue, OnOk};
ghost use Rattle.std.specs.Io.{ReadsAtMost};
ghost use Rattle.nc_names.specs.Counts.{Rose};
ghost use Rattle.nc_outside.specs.Disks.{largest_size};

use crate::opening::open;
use nc_names::{Memory, Text};
use nc_outside::{Disk, Failed};
use std::alloc::Global;
use std::fs::File;
use std::io::{self, ErrorKind};
use std::os::unix::fs::FileExt;

/// The largest size of a file, in bytes.
const LARGEST_SIZE: u64 = 1 << 62;

/// How often a read is tried again that a signal interrupts.
const MOST_TRIES: u32 = 1000;

/// The file `running.nc` in a folder. It is opened and locked at the first call, and made where it is not
/// there; a file that is new has its folder synced then. Where it cannot be opened, or another program has
/// the lock, each call fails. After a sync that failed each call fails too, since the system may have
/// dropped what was not written.
#[derive(Drop)]
pub struct FileDisk {
    rt: HostRuntime,
    folder: Text,
    path: Text,
    file: Option<File>,
    begun: bool,
    over: bool,
    faults: u64,
}

// The size of a file.
fn size_of(file: &File) -> io::Result<u64>
    ensures { IfOk result (λ n. n ≤ largest_size) }
{
    let size = file.metadata()?.len();
    if size > LARGEST_SIZE {
        return Err(ErrorKind::FileTooLarge.into());
    }
    Ok(size)
}

// Reads bytes from a place on, and tries again where a signal interrupts it.
fn read_from(file: &File, at: u64, into: &mut [u8]) -> io::Result<usize>
    ensures { ReadsAtMost result into.new }
{
    for _ in 0..MOST_TRIES {
        match file.read_at(into, at) {
            Err(error) if error.kind() == ErrorKind::Interrupted => {}
            other => return other,
        }
    }
    Err(ErrorKind::Interrupted.into())
}

// Whether a write of so many bytes ends within the largest size.
fn fits(at: u64, count: usize) -> bool
    ensures { IsTrue result ↔ (at + count ≤ largest_size) }
{
    at <= LARGEST_SIZE && count as u64 <= LARGEST_SIZE - at
}

// Writes all bytes at a place.
fn write_all(file: &File, at: u64, bytes: &[u8]) -> io::Result<()>
    ensures { OnOk result (at + length bytes.now ≤ largest_size) }
{
    if !fits(at, bytes.len()) {
        return Err(ErrorKind::FileTooLarge.into());
    }
    file.write_all_at(bytes, at)
}

impl FileDisk {
    /// The disk of a folder, before its first call. Without a folder each call fails.
    pub fn new(alloc: Global, rt: HostRuntime, folder: Option<&str>) -> Result<FileDisk, Memory>
        ensures { IfOk result (λ it. it.faults ≡ 0) }
    {
        let mut path = Text::from_text(alloc, folder.unwrap_or(""))?;
        path.push_str("/running.nc")?;
        Ok(FileDisk {
            rt,
            folder: Text::from_text(alloc, folder.unwrap_or(""))?,
            path,
            file: None,
            begun: folder.is_none(),
            over: false,
            faults: 0,
        })
    }

    // Opens the file, where this is the first call.
    fn begin(&mut self)
        ensures { self.new.faults ≡ self.old.faults }
    {
        if self.begun {
            return;
        }
        self.begun = true;
        if let Ok(file) = open(&self.rt, self.folder.as_str(), self.path.as_str()) {
            self.file = Some(file);
        }
    }

    // The file, where it is open and no sync has failed.
    fn file(&self) -> io::Result<&File> {
        match &self.file {
            Some(file) if !self.over => Ok(file),
            _ => Err(ErrorKind::NotConnected.into()),
        }
    }

    // Counts a fault.
    fn fail(&mut self) -> Failed
        ensures rose { Rose self.old.faults self.new.faults }
        ensures later { self.old.faults ≤ self.new.faults }
    {
        self.faults = self.faults.saturating_add(1);
        Failed
    }

    // The calls, without a count.
    fn try_size(&self) -> io::Result<u64>
        ensures { IfOk result (λ n. n ≤ largest_size) }
    {
        size_of(self.file()?)
    }

    fn try_read(&self, at: u64, into: &mut [u8]) -> io::Result<usize>
        ensures { ReadsAtMost result into.new }
    {
        read_from(self.file()?, at, into)
    }

    fn try_write(&self, at: u64, bytes: &[u8]) -> io::Result<()>
        ensures { OnOk result (at + length bytes.now ≤ largest_size) }
    {
        write_all(self.file()?, at, bytes)
    }

    fn try_cut(&self, size: u64) -> io::Result<()> {
        self.file()?.set_len(size)
    }

    fn try_sync(&self) -> io::Result<()> {
        self.file()?.sync_data()
    }
}

impl Disk for FileDisk {
    ghost use Rattle.std.specs.Prelude.{None};

    ghost seen = { λ _. None };

    ghost may_leave = { λ _ _. Unit };

    ghost moment = { λ _. 0 };

    ghost left_since = { λ _ _ _. Unit };

    ghost faults = { λ d. d.faults };

    fn size(&mut self) -> Result<u64, Failed> {
        self.begin();
        match self.try_size() {
            Ok(size) => Ok(size),
            Err(_) => Err(self.fail()),
        }
    }

    fn read(&mut self, at: u64, into: &mut [u8]) -> Result<usize, Failed> {
        self.begin();
        match self.try_read(at, into) {
            Ok(count) => Ok(count),
            Err(_) => Err(self.fail()),
        }
    }

    fn write_at(&mut self, at: u64, bytes: &[u8]) -> Result<(), Failed> {
        self.begin();
        match self.try_write(at, bytes) {
            Ok(()) => Ok(()),
            Err(_) => Err(self.fail()),
        }
    }

    fn cut(&mut self, size: u64) -> Result<(), Failed> {
        self.begin();
        match self.try_cut(size) {
            Ok(()) => Ok(()),
            Err(_) => Err(self.fail()),
        }
    }

    fn sync(&mut self) -> Result<(), Failed> {
        self.begin();
        match self.try_sync() {
            Ok(()) => Ok(()),
            Err(_) => {
                self.over = true;
                Err(self.fail())
            }
        }
    }

    fn faults(&self) -> u64 {
        self.faults
    }

    ghost seen_is_left = { λ disk bytes told. tt };

    ghost counts_now = { λ disk t c le left. tt };

    ghost only_now = { λ disk c left. tt };
}

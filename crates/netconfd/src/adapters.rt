//! The files of the setup folder, as the operating system gives them. The adapter tells no files; it
//! counts its faults.
ghost use Rattle.std.specs.Prelude.{◌≡◌, ◌≢◌, ◌≤◌};
ghost use Rattle.nc_names.specs.Counts.{Rose};

use nc_names::{Bytes, Many, Memory, Text};
use nc_outside::{FileFault, Files};
use nc_setup::is_module_name;
use std::alloc::Global;
use std::fs::{self, DirEntry};
use std::io::{self, ErrorKind};

/// The files of the file system. Of a folder it lists the names alone that end in `.yang`, since a
/// setup lists no other; what else lies in the folder is not looked at.
#[derive(Drop)]
pub struct SetupFiles {
    rt: HostRuntime,
    faults: u64,
}

impl SetupFiles {
    /// The file system, before the first call.
    pub fn new(rt: HostRuntime) -> SetupFiles
        ensures { result.faults ≡ 0 }
    {
        SetupFiles { rt, faults: 0 }
    }

    /// What the error of a call is to its caller: want of memory, or a fault, which is counted.
    fn fault(&mut self, error: &io::Error) -> FileFault
        ensures failed { result ≡ FileFault.Failed → Rose self.old.faults self.new.faults }
        ensures same { result ≢ FileFault.Failed → self.new.faults ≡ self.old.faults }
        ensures later { self.old.faults ≤ self.new.faults }
    {
        if error.kind() == ErrorKind::OutOfMemory {
            return FileFault::Memory;
        }
        self.faults = self.faults.saturating_add(1);
        FileFault::Failed
    }
}

/// Whether the error means that there is no such file or folder.
fn is_absent(error: &io::Error) -> bool {
    error.kind() == ErrorKind::NotFound || error.kind() == ErrorKind::NotADirectory
}

fn out_of_memory(_: Memory) -> io::Error {
    io::Error::from(ErrorKind::OutOfMemory)
}

/// The name of an entry of a folder. `None` stands for a name that does not end in `.yang` or is not
/// UTF-8, and for what is no file, or is gone meanwhile.
fn file_name(
    alloc: Global,
    rt: &HostRuntime,
    entry: io::Result<DirEntry>,
) -> io::Result<Option<Text>> {
    let entry = match entry {
        Ok(entry) => entry,
        Err(error) if error.kind() == ErrorKind::InvalidFilename => return Ok(None),
        Err(error) => return Err(error),
    };
    if !is_module_name(entry.file_name()) {
        return Ok(None);
    }
    match fs::metadata(rt, entry.path()) {
        Ok(metadata) if metadata.is_file() => {
            let name = Text::from_text(alloc, entry.file_name()).map_err(out_of_memory)?;
            Ok(Some(name))
        }
        Ok(_) => Ok(None),
        Err(error) if is_absent(&error) => Ok(None),
        Err(error) => Err(error),
    }
}

/// The names of the files in a folder, or `None` where there is no such folder.
fn list_folder(alloc: Global, rt: &HostRuntime, folder: &str) -> io::Result<Option<Many<Text>>> {
    let entries = match fs::read_dir(rt, folder) {
        Ok(entries) => entries,
        Err(error) if is_absent(&error) => return Ok(None),
        Err(error) => return Err(error),
    };
    let mut names = Many::new(alloc);
    for entry in entries {
        if let Some(name) = file_name(alloc, rt, entry)? {
            names.push(name).map_err(out_of_memory)?;
        }
    }
    Ok(Some(names))
}

/// The bytes of a file, or `None` where there is no such file.
fn read_file(rt: &HostRuntime, name: &str) -> io::Result<Option<Bytes>> {
    match fs::read(rt, name) {
        Ok(bytes) => Ok(Some(Bytes::from_vec(bytes))),
        Err(error) if is_absent(&error) => Ok(None),
        Err(error) => Err(error),
    }
}

impl Files for SetupFiles {
    ghost use Rattle.std.specs.Prelude.{None};

    ghost files = { λ _. None };

    ghost faults = { λ s. s.faults };

    fn names(&mut self, alloc: Global, folder: &str) -> Result<Option<Many<Text>>, FileFault> {
        match list_folder(alloc, &self.rt, folder) {
            Ok(names) => Ok(names),
            Err(error) => Err(self.fault(&error)),
        }
    }

    fn get(&mut self, _alloc: Global, name: &str) -> Result<Option<Bytes>, FileFault> {
        match read_file(&self.rt, name) {
            Ok(bytes) => Ok(bytes),
            Err(error) => Err(self.fault(&error)),
        }
    }
}

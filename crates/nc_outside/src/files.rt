//! The files of a setup folder.
ghost use Rattle.std.specs.Prelude.{◌≡◌, ◌+◌, ◌≤◌, ◌==◌, ℕ, List, Option, IfOk, IfSome, IsTrue, IsSome, find, is_some, if◌then◌else◌};
ghost use Rattle.std.specs.List.{list_any, filter_map};
ghost use Rattle.std.specs.Str.{bytes_eq};
ghost use Rattle.std.specs.Option.{option_copied};
ghost use Rattle.nc_outside.specs.Causes.{HasFileCause};
ghost use Rattle.nc_outside.specs.Folders as folders;
ghost use Rattle.nc_outside.specs.declared.files.NamedFile.{NamedFile};

use crate::FileFault;
use crate::plan::Plan;
use nc_names::{Bytes, Many, Memory, Text};
use std::alloc::Global;
use std::marker::Model;

/// A file: its name, in which `/` separates the folders, and its bytes.
#[derive(Drop)]
pub struct NamedFile {
    /// The name below the folder that is handed in.
    pub name: Text,
    /// What the file holds.
    pub bytes: Bytes,
}

/// Files that are handed in to be read: those of the setup folder. No call changes them.
pub trait Files {
    /// The files, where the object tells them.
    ghost files: { Self → Option (List NamedFile) };

    /// How often a call has failed. It stops at 2^64 - 1.
    ghost faults: { Self → ℕ };

    /// The names of the files that stand directly in a folder, without the folder's own name, or
    /// `None` where there is no such folder.
    ///
    /// `Failed` means that the files could not be read, and `Memory` that no memory was found. The
    /// count of faults rises at `Failed`, and nowhere else.
    fn names(&mut self, alloc: Global, folder: &str) -> Result<Option<Many<Text>>, FileFault>
        ensures names { IfOk result (λ it.
            IfSome (files self.old) (λ fs. it ≡ folders.names_of fs folder.now)) }
        ensures files { files self.new ≡ files self.old }
        ensures cause { HasFileCause (faults self.old) (faults self.new) result };

    /// The bytes of the file of this name, or `None` where there is no such file.
    ///
    /// `Failed` means that the files could not be read, and `Memory` that no memory was found. The
    /// count of faults rises at `Failed`, and nowhere else.
    fn get(&mut self, alloc: Global, name: &str) -> Result<Option<Bytes>, FileFault>
        ensures bytes { IfOk result (λ it.
            IfSome (files self.old) (λ fs. it ≡ folders.file_of fs name.now)) }
        ensures files { files self.new ≡ files self.old }
        ensures cause { HasFileCause (faults self.old) (faults self.new) result };
}

/// Files in memory. Contracts see the files, the calls that are to fail, and how many calls and
/// faults there were.
#[derive(Drop)]
pub struct MemFiles {
    files: Many<NamedFile>,
    plan: Plan,
}

impl Model for MemFiles {
    ghost use Rattle.nc_outside.specs.inner.Objects.{FilesState};

    ghost Value = { FilesState };

    ghost view = { λ s. record {
      files = s.files;
      failing = s.plan.failing;
      calls = s.plan.calls;
      faults = s.plan.faults;
    } };
}

impl MemFiles {
    /// These files. Where two have the same name, the first is the one that is read. The calls of
    /// both methods are counted together, from 1, and those whose numbers `failing` has fail. A
    /// call past the last number, 2^64 - 1, has that number too.
    pub fn new(files: Many<NamedFile>, failing: Many<u64>) -> MemFiles
        ensures files { result.files ≡ files }
        ensures failing { result.failing ≡ failing }
        ensures calls { result.calls ≡ 0 }
        ensures faults { result.faults ≡ 0 }
    {
        MemFiles {
            files,
            plan: Plan::new(failing),
        }
    }
}

// What stands after a folder and a slash in a name that begins with them.
fn name_below<'a>(folder: &str, name: &'a str) -> Option<&'a str>
    ensures { option_copied result ≡ folders.name_below folder.now name.now }
{
    let Some(rest) = name.strip_prefix(folder) else {
        return None;
    };
    rest.strip_prefix('/')
}

// The same, where no further slash stands in it.
fn name_in<'a>(folder: &str, name: &'a str) -> Option<&'a str>
    ensures { option_copied result ≡ folders.name_in folder.now name.now }
{
    let rest = name_below(folder, name)?;
    if rest.contains('/') { None } else { Some(rest) }
}

// Whether a file stands in the folder or below it.
fn is_there(files: &[NamedFile], folder: &str) -> bool
    ensures { result ≡ list_any (λ f. is_some (folders.name_below folder.now f.name)) files.now }
{
    files
        .iter()
        .any(|file| name_below(folder, file.name.as_str()).is_some())
}

// The names of the files that stand directly in a folder.
fn listing(alloc: Global, files: &[NamedFile], folder: &str) -> Result<Many<Text>, Memory>
    ensures { IfOk result (λ it. it ≡ filter_map (λ f. folders.name_in folder.now f.name) files.now) }
{
    let mut names = Many::new(alloc);
    for file in files {
        if let Some(name) = name_in(folder, file.name.as_str()) {
            names.push(Text::from_text(alloc, name)?)?;
        }
    }
    Ok(names)
}

// The first file of a name.
fn find_file<'a>(files: &'a [NamedFile], name: &str) -> Option<&'a NamedFile>
    ensures { option_copied result ≡ find (λ f. bytes_eq f.name name.now) files.now }
{
    files.iter().find(|file| file.name.as_str() == name)
}

impl Files for MemFiles {
    ghost use Rattle.std.specs.Prelude.{Some};
    ghost use Rattle.nc_outside.specs.inner.Objects.{IsFileCallOf};

    ghost files = { λ s. Some s.files };

    ghost faults = { λ s. s.faults };

    fn names(&mut self, alloc: Global, folder: &str) -> Result<Option<Many<Text>>, FileFault>
        ensures names { IfOk result (λ it.
            IfSome (Some self.old.files) (λ fs. it ≡ folders.names_of fs folder.now)) }
        ensures files { Some self.new.files ≡ Some self.old.files }
        ensures cause { HasFileCause self.old.faults self.new.faults result }
        ensures memory { IsFileCallOf self.old self.new result }
    {
        if self.plan.fails() {
            return Err(FileFault::Failed);
        }
        let files = self.files.as_slice();
        if !is_there(files, folder) {
            return Ok(None);
        }
        Ok(Some(listing(alloc, files, folder)?))
    }

    fn get(&mut self, alloc: Global, name: &str) -> Result<Option<Bytes>, FileFault>
        ensures bytes { IfOk result (λ it.
            IfSome (Some self.old.files) (λ fs. it ≡ folders.file_of fs name.now)) }
        ensures files { Some self.new.files ≡ Some self.old.files }
        ensures cause { HasFileCause self.old.faults self.new.faults result }
        ensures memory { IsFileCallOf self.old self.new result }
    {
        if self.plan.fails() {
            return Err(FileFault::Failed);
        }
        let Some(file) = find_file(self.files.as_slice(), name) else {
            return Ok(None);
        };
        Ok(Some(Bytes::from_slice(alloc, file.bytes.as_slice())?))
    }
}

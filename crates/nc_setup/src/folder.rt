//! The files of the folder of a device.
ghost use Rattle.std.specs.Prelude.{◌≡◌, ◌++◌, ◌∷◌, [], map, unwrap_or, IfOk, IfSome, IsPermutation, IsSorted};
ghost use Rattle.std.specs.Cmp.Lexicographic.{slice_cmp};
ghost use Rattle.std.specs.List.{filter};
ghost use Rattle.std.specs.Ordering.{nat_cmp};
ghost use Rattle.nc_names.specs.Signs.{slash};
ghost use Rattle.nc_outside.specs.Causes.{HasFileCause};
ghost use Rattle.nc_outside.specs.Folders.{file_of, names_of};
ghost use Rattle.nc_setup.specs.Folder as meant;
ghost use Rattle.nc_setup.specs.inner.Namings.{AreNamed};

use crate::features::lines_of;
use nc_names::{Bytes, Many, Memory, Text};
use nc_outside::{FileFault, Files};
use nc_yang::ModuleText;
use std::alloc::Global;

/// What the files in the folder of a device hold.
#[derive(Drop)]
pub struct Contents {
    /// The texts of the modules (RFC 7950 5.2), in the order of their files' names.
    pub modules: Many<ModuleText>,
    /// The features that are on (RFC 7950 5.6.2), each `module:feature`.
    pub features: Many<Text>,
    /// The text of the initial configuration, where there is one.
    pub initial: Option<Bytes>,
}

/// Whether a file's name is that of a module text.
pub fn is_module_name(name: &str) -> bool
    ensures { result ≡ meant.is_module_name name.now }
{
    name.as_bytes().ends_with(b".yang")
}

#[tactic(auto, unfolding(crate::specs::Folder::modules_word))]
fn modules_word() -> &'static str
    ensures { result.now ≡ meant.modules_word }
{
    "/modules"
}

#[tactic(auto, unfolding(crate::specs::Folder::features_word))]
fn features_word() -> &'static str
    ensures { result.now ≡ meant.features_word }
{
    "/features.txt"
}

#[tactic(auto, unfolding(crate::specs::Folder::initial_word))]
fn initial_word() -> &'static str
    ensures { result.now ≡ meant.initial_word }
{
    "/initial.xml"
}

// Two texts, one after the other.
fn joined(alloc: Global, first: &str, second: &str) -> Result<Text, Memory>
    ensures { IfOk result (λ it. it ≡ first.now ++ second.now) }
{
    let mut text = Text::from_text(alloc, first)?;
    text.push_str(second)?;
    Ok(text)
}

// The path of a file in a folder.
fn path_in(alloc: Global, folder: &str, name: &str) -> Result<Text, Memory>
    ensures { IfOk result (λ it. it ≡ folder.now ++ slash ∷ name.now) }
{
    let mut text = joined(alloc, folder, "/")?;
    text.push_str(name)?;
    Ok(text)
}

// Those of the names that are of module texts.
fn of_modules(alloc: Global, names: Many<Text>) -> Result<Many<Text>, Memory>
    ensures { IfOk result (λ it. it ≡ filter meant.is_module_name names) }
{
    let mut kept = Many::new(alloc);
    for name in names.into_vec() {
        if is_module_name(name.as_str()) {
            kept.push(name)?;
        }
    }
    Ok(kept)
}

// The names in the order of their bytes.
fn in_order(names: Many<Text>) -> Result<Many<Text>, Memory>
    ensures same { IfOk result (λ it. IsPermutation names it) }
    ensures order { IfOk result (λ it. IsSorted (slice_cmp nat_cmp) it) }
{
    let mut names = names.into_vec();
    names.sort()?;
    Ok(Many::from_vec(names))
}

// The names of the module texts, in the order of their bytes.
fn module_names<F: Files>(
    alloc: Global,
    files: &mut F,
    modules: &str,
) -> Result<Many<Text>, FileFault>
    ensures names { IfOk result (λ it. IfSome (F.files files.old) (λ fs. AreNamed fs modules.now it)) }
    ensures files { F.files files.new ≡ F.files files.old }
    ensures cause { HasFileCause (F.faults files.old) (F.faults files.new) result }
{
    match files.names(alloc, modules)? {
        Some(names) => Ok(in_order(of_modules(alloc, names)?)?),
        None => Ok(Many::new(alloc)),
    }
}

// The bytes of a file; those of one that is not there are none.
fn bytes_of<F: Files>(alloc: Global, files: &mut F, path: &str) -> Result<Bytes, FileFault>
    ensures bytes { IfOk result (λ it. IfSome (F.files files.old) (λ fs. it
        ≡ unwrap_or (file_of fs path.now) [])) }
    ensures files { F.files files.new ≡ F.files files.old }
    ensures cause { HasFileCause (F.faults files.old) (F.faults files.new) result }
{
    match files.get(alloc, path)? {
        Some(bytes) => Ok(bytes),
        None => Ok(Bytes::new(alloc)),
    }
}

// The text of a module.
fn module_text<F: Files>(
    alloc: Global,
    files: &mut F,
    modules: &str,
    name: Text,
) -> Result<ModuleText, FileFault>
    ensures text { IfOk result (λ it. IfSome (F.files files.old) (λ fs. it
        ≡ meant.text_in fs modules.now name)) }
    ensures files { F.files files.new ≡ F.files files.old }
    ensures cause { HasFileCause (F.faults files.old) (F.faults files.new) result }
{
    let path = path_in(alloc, modules, name.as_str())?;
    let bytes = bytes_of(alloc, files, path.as_str())?;
    Ok(ModuleText { file: name, bytes })
}

// The texts of modules.
fn module_texts<F: Files>(
    alloc: Global,
    files: &mut F,
    modules: &str,
    names: Many<Text>,
) -> Result<Many<ModuleText>, FileFault>
    ensures texts { IfOk result (λ it.
        IfSome (F.files files.old) (λ fs. it ≡ map (meant.text_in fs modules.now) names)) }
    ensures files { F.files files.new ≡ F.files files.old }
    ensures cause { HasFileCause (F.faults files.old) (F.faults files.new) result }
{
    let mut texts = Many::new(alloc);
    for name in names.into_vec() {
        texts.push(module_text(alloc, files, modules, name)?)?;
    }
    Ok(texts)
}

// The texts of all modules of a folder.
fn modules_of<F: Files>(
    alloc: Global,
    files: &mut F,
    folder: &str,
) -> Result<Many<ModuleText>, FileFault>
    ensures texts { IfOk result (λ it.
        IfSome (F.files files.old) (λ fs. meant.HoldsModules fs folder.now it)) }
    ensures files { F.files files.new ≡ F.files files.old }
    ensures cause { HasFileCause (F.faults files.old) (F.faults files.new) result }
{
    let modules = joined(alloc, folder, modules_word())?;
    let names = module_names(alloc, files, modules.as_str())?;
    module_texts(alloc, files, modules.as_str(), names)
}

// The features that are on.
fn features_of<F: Files>(
    alloc: Global,
    files: &mut F,
    folder: &str,
) -> Result<Many<Text>, FileFault>
    ensures features { IfOk result (λ it. IfSome (F.files files.old) (λ fs. it
        ≡ meant.features_in fs folder.now)) }
    ensures files { F.files files.new ≡ F.files files.old }
    ensures cause { HasFileCause (F.faults files.old) (F.faults files.new) result }
{
    let path = joined(alloc, folder, features_word())?;
    let text = bytes_of(alloc, files, path.as_str())?;
    Ok(lines_of(alloc, text.as_slice())?)
}

// The text of the initial configuration.
fn initial_of<F: Files>(
    alloc: Global,
    files: &mut F,
    folder: &str,
) -> Result<Option<Bytes>, FileFault>
    ensures text { IfOk result (λ it. IfSome (F.files files.old) (λ fs. it
        ≡ meant.initial_in fs folder.now)) }
    ensures files { F.files files.new ≡ F.files files.old }
    ensures cause { HasFileCause (F.faults files.old) (F.faults files.new) result }
{
    let path = joined(alloc, folder, initial_word())?;
    files.get(alloc, path.as_str())
}

/// Reads the folder of a device: the files in its folder `modules` whose names end in `.yang`, in the order
/// of their names' bytes; `features.txt`, a feature a line; and `initial.xml`. A folder that is not there is
/// an empty one, a module text that is not there is empty, and of the other two files either may be absent.
pub fn read_folder<F: Files>(
    alloc: Global,
    files: &mut F,
    folder: &str,
) -> Result<Contents, FileFault>
    ensures holds { IfOk result (λ it. IfSome (F.files files.old) (λ fs. meant.Holds fs folder.now it)) }
    ensures files { F.files files.new ≡ F.files files.old }
    ensures cause { HasFileCause (F.faults files.old) (F.faults files.new) result }
{
    let modules = modules_of(alloc, files, folder)?;
    let features = features_of(alloc, files, folder)?;
    let initial = initial_of(alloc, files, folder)?;
    Ok(Contents {
        modules,
        features,
        initial,
    })
}

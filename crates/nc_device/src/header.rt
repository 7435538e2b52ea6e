//! The header of a device's store.
ghost use Rattle.std.specs.Prelude.{◌≡◌, ◌<◌, ◌≤◌, ◌^◌, ◌++◌, ◌∷◌, [], length, map, IfOk};
ghost use Rattle.std.specs.List.{All, flat_map};
ghost use Rattle.nc_journal.specs.Format.{number};
ghost use Rattle.nc_journal.specs.Header.{counted, short_number};
ghost use Rattle.nc_yang.specs.Texts.{module_limit, text_limit};
ghost use Rattle.nc_device.specs.Header as meant;

use nc_names::{Bytes, Copies, Many, Memory, Text};
use nc_yang::ModuleText;
use std::alloc::Global;

// Adds a number in four bytes.
#[tactic(auto, unfolding(nc_journal::specs::Header::short_number))]
fn push_short(header: &mut Bytes, number: u32) -> Result<(), Memory>
    ensures { IfOk result (λ _. header.new ≡ header.old ++ short_number number) }
{
    header.push_slice(&number.to_be_bytes())
}

// Adds a number in eight bytes.
#[tactic(auto, unfolding(nc_journal::specs::Format::number))]
fn push_number(header: &mut Bytes, count: u64) -> Result<(), Memory>
    ensures { IfOk result (λ _. header.new ≡ header.old ++ number count) }
{
    header.push_slice(&count.to_be_bytes())
}

// Adds the number of modules.
fn push_count(header: &mut Bytes, modules: &[ModuleText]) -> Result<(), Memory>
    requires { length modules.now ≤ module_limit }
    ensures { IfOk result (λ _. header.new ≡ header.old ++ short_number (length modules.now)) }
{
    push_short(header, modules.len() as u32)
}

// Adds the text of a module, with its length before it.
fn push_text(header: &mut Bytes, text: &ModuleText) -> Result<(), Memory>
    requires { length text.now.bytes ≤ text_limit }
    ensures { IfOk result (λ _. header.new ≡ header.old ++ counted text.now.bytes) }
{
    push_short(header, text.bytes.len() as u32)?;
    header.push_slice(text.bytes.as_slice())
}

// Adds the texts of modules.
fn push_texts(header: &mut Bytes, modules: &[ModuleText]) -> Result<(), Memory>
    requires { All (λ text. length text.bytes ≤ text_limit) modules.now }
    ensures { IfOk result (λ _. header.new
        ≡ header.old ++ flat_map (λ text. counted text.bytes) modules.now) }
{
    for text in modules {
        push_text(header, text)?;
    }
    Ok(())
}

// The names in the order of their bytes, each once.
fn in_order(features: &Many<Text>) -> Result<Many<Text>, Memory>
    ensures { IfOk result (meant.AreInOrder features.now) }
{
    let mut names = features.copy()?.into_vec();
    names.sort_unstable();
    names.dedup();
    Ok(Many::from_vec(names))
}

// Each name on a line.
fn lines(alloc: Global, names: &Many<Text>) -> Result<Bytes, Memory>
    ensures { IfOk result (λ it. it ≡ flat_map meant.line names.now) }
{
    let mut text = Bytes::new(alloc);
    for name in names.as_slice() {
        text.push_slice(name.as_str().as_bytes())?;
        text.push(b'\n')?;
    }
    Ok(text)
}

// Adds a text with its length before it.
fn push_lines(header: &mut Bytes, text: &[u8]) -> Result<(), Memory>
    ensures written { IfOk result (λ _. header.new ≡ header.old ++ (number (length text.now) ++ text.now)) }
    ensures fits { length text.now < 2 ^ 64 }
{
    push_number(header, text.len() as u64)?;
    header.push_slice(text)
}

/// The header of the store of a device: the texts of its modules, and its features, sorted and each once, a
/// line for each. By it the next start knows that it reads the file with the schema that wrote it.
pub(crate) fn header_of(
    alloc: Global,
    modules: &Many<ModuleText>,
    features: &Many<Text>,
) -> Result<Bytes, Memory>
    requires few { length modules.now ≤ module_limit }
    requires small { All (λ text. length text.bytes ≤ text_limit) modules.now }
    ensures { IfOk result (meant.IsStoreHeader modules.now features.now) }
{
    let names = in_order(features)?;
    let text = lines(alloc, &names)?;
    let texts = modules.as_slice();
    let mut header = Bytes::new(alloc);
    push_count(&mut header, texts)?;
    push_texts(&mut header, texts)?;
    push_lines(&mut header, text.as_slice())?;
    Ok(header)
}

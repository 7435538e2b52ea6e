//! The statements of module texts.
ghost use Rattle.std.specs.Prelude.{◌≡◌, ◌≤◌, ◌<◌, false, true, position, MatchResult, MatchOption};
ghost use Rattle.std.specs.Str.{is_utf8};
ghost use Rattle.nc_yang_statements.specs.declared.fault.ModuleWhy.TheVariants.{TooMany};
ghost use Rattle.nc_yang.specs.Texts.{AreRead, HasNoStatements, IsUnread, OnModule, Spells, is_long};
ghost use Rattle.nc_yang.specs.Texts as words;
ghost use Rattle.nc_yang.specs.declared.fault.CompileFault.TheVariants.{Module};

use crate::fault::CompileFault;
use crate::text::ModuleText;
use nc_names::Many;
use nc_yang_statements::ModuleWhy;
use nc_yang_words::{Statement, WordFault, statements};
use std::alloc::Global;

/// The most modules.
const MODULE_LIMIT: usize = 1000;

/// The most octets of a module's text.
const TEXT_LIMIT: usize = 4_194_304;

// Whether a text is longer than a module's may be.
fn is_too_long(text: &ModuleText) -> bool
    ensures { result ≡ is_long text.now }
{
    text.bytes.len() > TEXT_LIMIT
}

// The first text that is longer than a module's may be.
fn first_long(texts: &[ModuleText]) -> Option<usize>
    ensures { result ≡ position is_long texts.now }
{
    texts.iter().position(|text| is_too_long(text))
}

/// The characters of octets. `None` means that they are not UTF-8.
#[tactic(auto, using(crate::proofs::Utf8::utf8_yes, crate::proofs::Utf8::utf8_no))]
pub fn chars_of(bytes: &[u8]) -> Option<&str>
    ensures { MatchOption result (is_utf8 bytes.now ≡ false)
        (λ chars. (chars.now ≡ bytes.now) × (is_utf8 bytes.now ≡ true)) }
{
    match str::from_utf8(bytes) {
        Ok(chars) => Some(chars),
        Err(_) => None,
    }
}

// That a file is past a limit.
fn past(file: usize) -> CompileFault
    requires { file ≤ words.module_limit }
    ensures { result ≡ Module file 1 TooMany }
{
    CompileFault::Module {
        file: file as u32,
        line: 1,
        why: ModuleWhy::TooMany,
    }
}

// The statements of the text of a file.
fn read_text(alloc: Global, file: usize, text: &ModuleText) -> Result<Statement, CompileFault>
    requires { file < words.module_limit }
    ensures { MatchResult result (Spells text.now) (OnModule (λ at fault. (at ≡ file)
        × HasNoStatements text.now fault)) }
{
    let file = file as u32;
    let Some(chars) = chars_of(text.bytes.as_slice()) else {
        let why = ModuleWhy::NotText;
        return Err(CompileFault::Module { file, line: 1, why });
    };
    match statements(alloc, chars) {
        Ok(root) => Ok(root),
        Err(WordFault::Bad { line }) => {
            let why = ModuleWhy::BadWords;
            Err(CompileFault::Module { file, line, why })
        }
        Err(WordFault::Memory) => Err(CompileFault::Memory),
    }
}

/// The statements of the texts, each of which is one statement with all others in it (RFC 7950 6.3). A fault
/// is of a file that is past a limit of the server, or whose text has no statements; of several files the
/// first.
pub fn read_texts(alloc: Global, texts: &[ModuleText]) -> Result<Many<Statement>, CompileFault>
    ensures { MatchResult result (AreRead texts.now) (OnModule (IsUnread texts.now)) }
{
    if texts.len() > MODULE_LIMIT {
        return Err(past(MODULE_LIMIT));
    }
    if let Some(file) = first_long(texts) {
        return Err(past(file));
    }
    let mut roots = Many::new(alloc);
    for (file, text) in texts.iter().enumerate() {
        roots.push(read_text(alloc, file, text)?)?;
    }
    Ok(roots)
}

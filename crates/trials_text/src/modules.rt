//! Rows of module texts (nc_yang_words): a statement is shown as `keyword<argument>@line{..}`, with the
//! statements below it; a fault by its line.
use crate::shown::show_bytes;
use nc_names::Memory;
use nc_yang_words::{Statement, WordFault, statements};
use std::alloc::Global;
use std::fmt::Write;

fn show(out: &mut String, statement: &Statement) -> Result<(), Memory> {
    show_bytes(out, statement.keyword.as_str().as_bytes())?;
    if let Some(argument) = &statement.argument {
        out.push('<')?;
        show_bytes(out, argument.as_str().as_bytes())?;
        out.push('>')?;
    }
    let line = statement.line;
    write!(out, "@{line}")?;
    if !statement.below.is_empty() {
        out.push('{')?;
        for below in statement.below.as_slice() {
            show(out, below)?;
        }
        out.push('}')?;
    }
    Ok(())
}

/// The statements of a module text, or the line of its fault.
pub(crate) fn read(alloc: Global, given: &[u8]) -> Result<String, Memory> {
    let Ok(text) = str::from_utf8(given) else {
        return Ok(String::from_str(alloc, "no text")?);
    };
    let mut out = String::new(alloc);
    match statements(alloc, text) {
        Ok(root) => show(&mut out, &root)?,
        Err(WordFault::Bad { line }) => write!(out, "bad {line}")?,
        Err(WordFault::Memory) => return Err(Memory),
    }
    Ok(out)
}

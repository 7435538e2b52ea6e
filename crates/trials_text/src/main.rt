//! Answers of the crates for plain texts, messages, frames, module texts and patterns to rows of text. Each
//! line of the input is a row, a kind and a text, and is printed with what is answered; empty lines and those
//! that begin with `#` are printed as they are. Nothing stands on this crate.
//!
//! In a text `\n`, `\r`, `\t`, `\\` and `\xHH` stand for a byte, and `\*COUNT(PART)` for a part that is
//! repeated. Answers have the same escapes; what is longer than 200 octets is told by its length.
#![tactic(auto)]

mod frames;
mod given;
mod messages;
mod modules;
mod patterns;
mod shown;
mod words;

use nc_names::Memory;
use patterns::Types;
use std::alloc::Global;
use std::io::{self, ErrorKind};

/// What is answered to a row. In a pattern a backslash is one of its own.
fn answer(alloc: Global, types: &mut Types, line: &str) -> Result<String, Memory> {
    let (kind, rest) = line.split_once(" ").unwrap_or((line, ""));
    match kind {
        "pattern" => types.begin(rest),
        "and" => types.add(rest),
        _ => answer_to(
            alloc,
            types,
            kind,
            given::spelled(alloc, rest.as_bytes())?.as_slice(),
        ),
    }
}

/// What is answered to a row of a kind whose text stands for these bytes.
fn answer_to(alloc: Global, types: &Types, kind: &str, bytes: &[u8]) -> Result<String, Memory> {
    match kind {
        "admits" => types.admits(bytes),
        "decimal" => words::decimal(alloc, bytes),
        "identifier" => words::identifier(alloc, bytes),
        "message" => messages::read(alloc, bytes),
        "written" => messages::written(alloc, bytes),
        "module" => modules::read(alloc, bytes),
        "marks" => frames::read(alloc, frames::Framing::Marks, bytes),
        "chunks" => frames::read(alloc, frames::Framing::Chunks, bytes),
        "session" => frames::read(alloc, frames::Framing::Session, bytes),
        "late-chunks" => frames::read(alloc, frames::Framing::Late, bytes),
        "by-mark" => frames::written(alloc, frames::Framing::Marks, bytes),
        "in-chunks" => frames::written(alloc, frames::Framing::Chunks, bytes),
        _ => Ok(String::from_str(alloc, "no kind of row")?),
    }
}

fn main(rt: HostRuntime) -> io::Result<()> {
    let mut types = Types::new(rt.alloc());
    for line in rt.lines(rt.alloc()) {
        let line = line?;
        if line.is_empty() || line.as_str().starts_with('#') {
            println!(rt; "{line}")?;
        } else {
            let answer = answer(rt.alloc(), &mut types, line.as_str()).map_err(|_| io::Error::from(
                ErrorKind::OutOfMemory,
            ))?;
            println!(rt; "{line} => {answer}")?;
        }
    }
    Ok(())
}

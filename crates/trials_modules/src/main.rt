//! What the program netconfd does not show of the schema of modules. Each line of the input is a row, a name
//! and then module texts with `%` between them; empty lines and those that begin with `#` are printed as they
//! are. A row is answered by its name and the number of types that these modules add. Types that mean the
//! same are kept once, which saves time and memory: no contract promises it. A row whose name begins with
//! `deny` is answered by the data nodes at which access control denies something without a rule, each with
//! its number and `all` or `write` (RFC 8341 3.5.2), and one whose name begins with `nodes` by the names of
//! the data nodes in the order of their numbers. Nothing stands on this crate. What modules mean, and which
//! rules they break, is shown by the folders of cases/. Modules are worked whole by the laws of proofs/.
#![tactic(auto)]

use nc_names::{Bytes, Many, Memory, Text};
use nc_patterns::RegexMaker;
use nc_schema::{Deny, Schema};
use nc_yang::{CompileFault, ModuleText, compile};
use std::alloc::Global;
use std::io::{self, ErrorKind};

/// The files of texts.
fn files(alloc: Global, texts: &str) -> Result<Many<ModuleText>, Memory> {
    let mut files = Many::new(alloc);
    for text in texts.split('%') {
        files.push(ModuleText {
            file: Text::from_text(alloc, "m.yang")?,
            bytes: Bytes::from_slice(alloc, text.as_bytes())?,
        })?;
    }
    Ok(files)
}

/// How many types ietf-netconf-acm has, which is in each schema.
const ACCESS_TYPES: usize = 21;

/// The data nodes at which something is denied.
fn denials(alloc: Global, schema: &Schema) -> Result<String, Memory> {
    let mut said = String::new(alloc);
    for number in 0..schema.nodes() {
        let Some(node) = schema.node(number) else {
            return Ok(said);
        };
        let word = match node.deny {
            Deny::Nothing => "",
            Deny::All => "all",
            Deny::Write => "write",
        };
        if !word.is_empty() {
            let name = node.name.name.as_str();
            said.push_str(format!(in alloc; " {number} {name} {word}")?.as_str())?;
        }
    }
    Ok(said)
}

/// The names of the data nodes.
fn names(alloc: Global, schema: &Schema) -> Result<String, Memory> {
    let mut said = String::new(alloc);
    for number in 0..schema.nodes() {
        if let Some(node) = schema.node(number) {
            let name = node.name.name.as_str();
            said.push_str(format!(in alloc; " {name}")?.as_str())?;
        }
    }
    Ok(said)
}

/// What is asked of a schema by the name of a row.
fn told(alloc: Global, name: &str, schema: &Schema) -> Result<String, Memory> {
    if name.starts_with("deny") {
        denials(alloc, schema)
    } else if name.starts_with("nodes") {
        names(alloc, schema)
    } else {
        let types = schema.types().len().saturating_sub(ACCESS_TYPES);
        Ok(format!(in alloc; " {types}")?)
    }
}

/// The answer to a row of that name.
fn answer(alloc: Global, name: &str, texts: &str) -> Result<String, Memory> {
    let files = files(alloc, texts)?;
    let mut maker = RegexMaker::new(alloc);
    match compile(alloc, files.as_slice(), &[], &mut maker) {
        Ok(made) => told(alloc, name, &made.schema),
        Err(CompileFault::Module { .. }) => Ok(String::from_str(alloc, " no schema")?),
        Err(CompileFault::Memory) => Err(Memory),
    }
}

fn no_memory(_: Memory) -> io::Error {
    io::Error::from(ErrorKind::OutOfMemory)
}

fn main(rt: HostRuntime) -> io::Result<()> {
    for line in rt.lines(rt.alloc()) {
        let line = line?;
        if line.is_empty() || line.as_str().starts_with('#') {
            println!(rt; "{line}")?;
        } else {
            let (name, texts) = line
                .as_str()
                .split_once(": ")
                .unwrap_or((line.as_str(), ""));
            let answer = answer(rt.alloc(), name, texts).map_err(no_memory)?;
            println!(rt; "{name} =>{answer}")?;
        }
    }
    Ok(())
}

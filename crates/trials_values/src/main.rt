//! Answers of nc_paths and nc_types to rows of text: what path texts name, with the place of the fault
//! where they name nothing, and values of types that no module has. Each line of the input is a row, a
//! kind, mostly a number of a data node, and a text, and is printed with what is answered; empty lines
//! and those that begin with `#` are printed as they are. In a text `\n`, `\t`, `\s` and `\\` stand for a
//! line feed, a tab, a space and a backslash. Nothing stands on this crate.
#![tactic(auto)]

mod given;
mod paths;
mod site;

use nc_names::Memory;
use nc_types::{TypeFault, canonical};
use site::Site;
use std::alloc::Global;
use std::io::{self, ErrorKind};

/// The canonical text of a value at a node, or that the type has no such value.
fn value(alloc: Global, site: &Site, node: u32, text: &str) -> Result<String, Memory> {
    match canonical(alloc, &site.ports, node, text, &site.bounds) {
        Ok(found) => Ok(format!(in alloc; "'{found}'")?),
        Err(TypeFault::NotInType) => Ok(String::from_str(alloc, "none")?),
        Err(TypeFault::Memory) => Err(Memory),
    }
}

/// What is answered to a row about a data node.
fn answer_at(alloc: Global, site: &Site, kind: &str, rest: &str) -> Result<String, Memory> {
    let (number, text) = rest.split_once(" ").unwrap_or((rest, ""));
    let node = number.parse::<u32>().unwrap_or(u32::MAX);
    match kind {
        "keys" => paths::keys(alloc, &site.ports, &site.bounds, node, text),
        "leafref" => paths::leafref(alloc, &site.ports, &site.bounds, node, text),
        "leafref-of-two" => paths::leafref(alloc, &site.two, &site.bounds, node, text),
        "value" => value(alloc, site, node, text),
        _ => Ok(String::from_str(alloc, "no kind of row")?),
    }
}

/// What is answered to a row.
fn answer(alloc: Global, site: &Site, line: &str) -> Result<String, Memory> {
    let line = given::spelled(alloc, line)?;
    let (kind, rest) = line.as_str().split_once(" ").unwrap_or((line.as_str(), ""));
    match kind {
        "instance" => paths::instance(alloc, &site.ports, &site.bounds, rest),
        "pattern" => paths::pattern(alloc, &site.ports, &site.bounds, rest),
        _ => answer_at(alloc, site, kind, rest),
    }
}

fn no_memory(_: Memory) -> io::Error {
    io::Error::from(ErrorKind::OutOfMemory)
}

/// What is printed of a line.
fn shown(alloc: Global, site: &Site, line: &str) -> Result<String, Memory> {
    if line.is_empty() || line.starts_with('#') {
        return Ok(String::from_str(alloc, line)?);
    }
    let answer = answer(alloc, site, line)?;
    Ok(format!(in alloc; "{line} => {answer}")?)
}

fn main(rt: HostRuntime) -> io::Result<()> {
    let alloc = rt.alloc();
    let mut site = Site::new(alloc);
    site.put(alloc).map_err(no_memory)?;
    for line in rt.lines(alloc) {
        let shown = shown(alloc, &site, line?.as_str()).map_err(no_memory)?;
        println!(rt; "{shown}")?;
    }
    Ok(())
}

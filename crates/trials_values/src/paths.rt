//! Rows of path texts (RFC 7950 7.8.6, 9.9.2, 9.13; RFC 8341 3.5.2). A path is shown as its canonical
//! text; the steps of a pattern by the numbers of their nodes, each with its keys after commas, `-` for a
//! key that is left out; the end of a leafref by its node and the node in which both stand. Where a text
//! names nothing, the place of the first octet that no path has there is shown.
use nc_names::{Bound, Many, Memory, Path, Text};
use nc_path_places::{PathFault, instance_id, leafref_path, node_instance_id};
use nc_paths::{entry_keys, instance_path, leafref_end, node_pattern};
use nc_schema::{Pattern, Schema};
use std::alloc::Global;
use std::fmt::Write;

/// What is shown where the two calls that read one kind of path do not agree.
const DIFFER: &str = "one call reads it and the other does not";

/// The fault of a text that names nothing.
fn fault(alloc: Global, fault: PathFault) -> Result<String, Memory> {
    match fault {
        PathFault::BadPath { at } => Ok(format!(in alloc; "none at {at}")?),
        PathFault::Memory => Err(Memory),
    }
}

fn show_path(alloc: Global, schema: &Schema, path: &Path) -> Result<String, Memory> {
    let mut out = Text::new(alloc);
    schema.path_text(path, &mut out)?;
    Ok(String::from_str(alloc, out.as_str())?)
}

/// What an instance identifier names.
pub(crate) fn instance(
    alloc: Global,
    schema: &Schema,
    bounds: &Many<Bound>,
    text: &str,
) -> Result<String, Memory> {
    let path = instance_path(alloc, schema, text, bounds)?;
    let same = instance_id(alloc, schema, text, bounds);
    match (&path, &same) {
        (Some(path), Ok(same)) if path == same => show_path(alloc, schema, path),
        (None, Err(why)) => fault(alloc, *why),
        _ => Ok(String::from_str(alloc, DIFFER)?),
    }
}

fn show_pattern(alloc: Global, pattern: &Pattern) -> Result<String, Memory> {
    let mut out = String::from_str(alloc, "steps")?;
    for step in pattern.steps.as_slice() {
        write!(out, " {}", step.node)?;
        for key in step.keys.as_slice() {
            out.push(',')?;
            out.push_str(match key {
                Some(value) => value.as_str(),
                None => "-",
            })?;
        }
    }
    Ok(out)
}

/// What a node-instance identifier names.
pub(crate) fn pattern(
    alloc: Global,
    schema: &Schema,
    bounds: &Many<Bound>,
    text: &str,
) -> Result<String, Memory> {
    let pattern = node_pattern(alloc, schema, text, bounds)?;
    match (pattern, node_instance_id(alloc, schema, text, bounds)) {
        (Some(pattern), Ok(_)) => show_pattern(alloc, &pattern),
        (None, Err(why)) => fault(alloc, why),
        _ => Ok(String::from_str(alloc, DIFFER)?),
    }
}

/// The keys of an anchor at a list.
pub(crate) fn keys(
    alloc: Global,
    schema: &Schema,
    bounds: &Many<Bound>,
    list: u32,
    text: &str,
) -> Result<String, Memory> {
    let Some(keys) = entry_keys(alloc, schema, list, text, bounds)? else {
        return Ok(String::from_str(alloc, "none")?);
    };
    let mut out = String::from_str(alloc, "keys")?;
    for key in keys.as_slice() {
        write!(out, " '{key}'")?;
    }
    Ok(out)
}

/// Where the path of a leafref ends.
pub(crate) fn leafref(
    alloc: Global,
    schema: &Schema,
    bounds: &Many<Bound>,
    leaf: u32,
    text: &str,
) -> Result<String, Memory> {
    let end = leafref_end(alloc, schema, leaf, text, bounds)?;
    match (end, leafref_path(alloc, schema, leaf, text, bounds)) {
        (Some(end), Ok(same)) if end == same => match end.above {
            Some(above) => Ok(format!(in alloc; "{} in {above}", end.target)?),
            None => Ok(format!(in alloc; "{} in all", end.target)?),
        },
        (None, Err(why)) => fault(alloc, why),
        _ => Ok(String::from_str(alloc, DIFFER)?),
    }
}

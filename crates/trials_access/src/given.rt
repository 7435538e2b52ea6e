//! Rows of running, each given by a line: those of access control in short, and others by their paths.
use nc_names::{Many, Memory, Path, Place, Row, Step, Text};
use nc_paths::instance_path;
use nc_schema::Schema;
use nc_tree::Config;
use std::alloc::Global;

/// The step to a data node, or to an entry of one key.
fn step(alloc: Global, node: u32, key: &str) -> Result<Step, Memory> {
    let mut keys = Many::new(alloc);
    if !key.is_empty() {
        keys.push(Text::from_text(alloc, key)?)?;
    }
    Ok(Step { node, keys })
}

fn path_of(alloc: Global, steps: &[(u32, &str)]) -> Result<Path, Memory> {
    let mut out = Many::new(alloc);
    for (node, key) in steps {
        out.push(step(alloc, *node, key)?)?;
    }
    Ok(Path { steps: out })
}

fn value_of(alloc: Global, value: &str) -> Result<Option<Text>, Memory> {
    if value.is_empty() {
        return Ok(None);
    }
    Ok(Some(Text::from_text(alloc, value)?))
}

/// Puts the row of a node, of an entry with its keys.
fn put(
    alloc: Global,
    schema: &Schema,
    config: &mut Config,
    steps: &[(u32, &str)],
    value: &str,
) -> Result<(), Memory> {
    let row = Row {
        path: path_of(alloc, steps)?,
        value: value_of(alloc, value)?,
    };
    config.put(schema, row, &Place::Kept)
}

/// The number of a leaf in the container `nacm`, or of a rule.
fn leaf_named(name: &str) -> u32 {
    match name {
        "enable-nacm" => 1,
        "read-default" => 2,
        "write-default" => 3,
        "exec-default" => 4,
        "enable-external-groups" => 5,
        "module" => 15,
        "rpc" => 16,
        "notification" => 17,
        "path" => 18,
        "operations" => 19,
        "action" => 20,
        _ => 21,
    }
}

/// `set LEAF VALUE`: a leaf in the container `nacm`.
pub(crate) fn set(
    alloc: Global,
    schema: &Schema,
    config: &mut Config,
    rest: &str,
) -> Result<(), Memory> {
    let (name, value) = rest.split_once(" ").unwrap_or((rest, ""));
    put(
        alloc,
        schema,
        config,
        &[(0, ""), (leaf_named(name), "")],
        value,
    )
}

/// `group NAME USER ..`: a group with its users.
pub(crate) fn group(
    alloc: Global,
    schema: &Schema,
    config: &mut Config,
    rest: &str,
) -> Result<(), Memory> {
    let (name, users) = rest.split_once(" ").unwrap_or((rest, ""));
    put(alloc, schema, config, &[(0, ""), (6, ""), (7, name)], "")?;
    for user in users.split(' ') {
        if !user.is_empty() {
            let steps = [(0, ""), (6, ""), (7, name), (9, user)];
            put(alloc, schema, config, &steps, user)?;
        }
    }
    Ok(())
}

/// `list NAME GROUP ..`: a rule-list for some groups.
pub(crate) fn list(
    alloc: Global,
    schema: &Schema,
    config: &mut Config,
    rest: &str,
) -> Result<(), Memory> {
    let (name, groups) = rest.split_once(" ").unwrap_or((rest, ""));
    put(alloc, schema, config, &[(0, ""), (10, name)], "")?;
    for group in groups.split(' ') {
        if !group.is_empty() {
            let steps = [(0, ""), (10, name), (12, group)];
            put(alloc, schema, config, &steps, group)?;
        }
    }
    Ok(())
}

/// A part of a rule, as `module=ex`; a comma between access operations stands for a blank.
fn put_part<'a>(
    alloc: Global,
    schema: &Schema,
    config: &mut Config,
    names: (&'a str, &'a str),
    part: &str,
) -> Result<(), Memory> {
    let (list, rule) = names;
    let (name, value) = part.split_once("=").unwrap_or((part, ""));
    let steps = [(0, ""), (10, list), (13, rule), (leaf_named(name), "")];
    if name == "operations" {
        let value = value.replace(alloc, ",", " ")?;
        return put(alloc, schema, config, &steps, value.as_str());
    }
    put(alloc, schema, config, &steps, value)
}

/// `rule LIST NAME PART ..`: a rule of a rule-list, after those that are there.
pub(crate) fn rule(
    alloc: Global,
    schema: &Schema,
    config: &mut Config,
    rest: &str,
) -> Result<(), Memory> {
    let (list, rest) = rest.split_once(" ").unwrap_or((rest, ""));
    let (name, parts) = rest.split_once(" ").unwrap_or((rest, ""));
    put(
        alloc,
        schema,
        config,
        &[(0, ""), (10, list), (13, name)],
        "",
    )?;
    for part in parts.split(' ') {
        put_part(alloc, schema, config, (list, name), part)?;
    }
    Ok(())
}

/// `row PATH VALUE`: a leaf, or an entry where there is no value.
pub(crate) fn row(
    alloc: Global,
    schema: &Schema,
    config: &mut Config,
    rest: &str,
) -> Result<(), Memory> {
    let (path, value) = rest.split_once(" ").unwrap_or((rest, ""));
    let Some(path) = instance_path(alloc, schema, path, schema)? else {
        return Ok(());
    };
    let row = Row {
        path,
        value: value_of(alloc, value)?,
    };
    config.put(schema, row, &Place::Kept)
}

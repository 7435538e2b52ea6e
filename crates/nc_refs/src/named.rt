//! Whether the node that an instance-identifier names exists (RFC 7950 9.13).
ghost use Rattle.std.specs.Prelude.{◌≡◌, true, List, IfOk};
ghost use Rattle.nc_names.specs.Same.{is_same_text};
ghost use Rattle.nc_names.specs.declared.path.Row.{Row};
ghost use Rattle.nc_schema.specs.PathTexts.{path_text_of};
ghost use Rattle.nc_schema.specs.Standing.{exists};
ghost use Rattle.nc_schema.specs.Violations as violations;
ghost use Rattle.nc_refs.specs.inner.Named.{AllExist, names, names_along};

use nc_names::{Copies, Many, Memory, Path, Row, Shared, Step, Text};
use nc_paths::instance_path;
use nc_schema::Schema;
use nc_tree::Listed;
use std::alloc::Global;
use std::collections::BTreeSet;

// With a node.
fn with_node<'a>(
    nodes: BTreeSet<&'a [Step]>,
    steps: &'a [Step],
) -> Result<BTreeSet<&'a [Step]>, Memory>
    ensures { IfOk result (λ it. (rows : List Row) → AllExist rows nodes.entry → exists rows steps.now
        ≡ true → AllExist rows it) }
{
    let mut nodes = nodes;
    nodes.insert(steps)?;
    Ok(nodes)
}

// With a node and all above it but the root.
fn with_nodes<'a>(
    nodes: BTreeSet<&'a [Step]>,
    steps: &'a [Step],
) -> Result<BTreeSet<&'a [Step]>, Memory>
    ensures { IfOk result (λ it. (rows : List Row) → AllExist rows nodes.entry → exists rows steps.now
        ≡ true → AllExist rows it) }
{
    let mut nodes = nodes;
    for at in 0..steps.len() {
        nodes = with_node(nodes, &steps[..at + 1])?;
    }
    Ok(nodes)
}

// The steps to a row.
fn steps_of(row: &Shared<Row>) -> &[Step]
    ensures { result.now ≡ row.now.path.steps }
{
    row.get().path.steps.as_slice()
}

/// The nodes of a configuration that exist.
pub(crate) fn nodes_of(alloc: Global, config: &Listed) -> Result<BTreeSet<&[Step]>, Memory>
    ensures { IfOk result (AllExist config.now) }
{
    let mut nodes = BTreeSet::new(alloc);
    for row in config.as_slice() {
        nodes = with_nodes(nodes, steps_of(row))?;
    }
    Ok(nodes)
}

// Whether a text is that of a path.
fn is_text_of(alloc: Global, schema: &Schema, path: &Path, text: &Text) -> Result<bool, Memory>
    ensures { IfOk result (λ it. it ≡ is_same_text (path_text_of schema.now path.now) text.now) }
{
    let mut written = Text::new(alloc);
    schema.path_text(path, &mut written)?;
    Ok(written.as_str() == text.as_str())
}

fn has_node(nodes: &BTreeSet<&[Step]>, steps: &[Step]) -> bool
    ensures { (rows : List Row) → AllExist rows nodes.now → result ≡ true → exists rows steps.now ≡ true }
{
    nodes.contains(steps)
}

// Whether a path is that of one of the nodes, and has the text.
fn is_one(
    alloc: Global,
    schema: &Schema,
    nodes: &BTreeSet<&[Step]>,
    path: &Path,
    text: &Text,
) -> Result<bool, Memory>
    ensures text { IfOk result (λ it. it ≡ true → names schema.now text.now path.now.steps ≡ true) }
    ensures exists { (rows : List Row) → AllExist rows nodes.now → IfOk result (λ it. it ≡ true
        → exists rows path.now.steps ≡ true) }
{
    if !has_node(nodes, path.steps.as_slice()) {
        return Ok(false);
    }
    is_text_of(alloc, schema, path, text)
}

// Whether one of the nodes has the path that a text names. Where it has not, the text may still be another's.
fn names_one(
    alloc: Global,
    schema: &Schema,
    nodes: &BTreeSet<&[Step]>,
    text: &Text,
) -> Result<bool, Memory>
    ensures { (rows : List Row) → AllExist rows nodes.now → IfOk result (λ it. it ≡ true
        → violations.is_named_node schema.now rows text.now ≡ true) }
{
    match instance_path(alloc, schema, text.as_str(), schema)? {
        Some(path) => is_one(alloc, schema, nodes, &path, text),
        None => Ok(false),
    }
}

// Whether a text is that of the path with these steps.
fn names(alloc: Global, schema: &Schema, steps: &[Step], text: &Text) -> Result<bool, Memory>
    ensures { IfOk result (λ it. it ≡ names schema.now text.now steps.now) }
{
    let mut copied = Many::new(alloc);
    for step in steps {
        copied.push(step.copy()?)?;
    }
    is_text_of(alloc, schema, &Path { steps: copied }, text)
}

// Whether a text is that of a path, or of one above it.
fn names_along(alloc: Global, schema: &Schema, steps: &[Step], text: &Text) -> Result<bool, Memory>
    ensures { IfOk result (λ it. it ≡ names_along schema.now text.now steps.now) }
{
    if names(alloc, schema, steps, text)? {
        return Ok(true);
    }
    for at in 0..steps.len() {
        if names(alloc, schema, &steps[..at], text)? {
            return Ok(true);
        }
    }
    Ok(false)
}

// Whether a text is that of the path of a node that exists, by a look at each.
fn names_any(alloc: Global, schema: &Schema, config: &Listed, text: &Text) -> Result<bool, Memory>
    ensures { IfOk result (λ it. it ≡ violations.is_named_node schema.now config.now text.now) }
{
    for row in config.as_slice() {
        if names_along(alloc, schema, steps_of(row), text)? {
            return Ok(true);
        }
    }
    Ok(false)
}

/// Whether the node exists that a path text names. Each node is looked at only where the text is no path of
/// `nodes`, which are nodes that exist.
pub(crate) fn is_named_node(
    alloc: Global,
    schema: &Schema,
    config: &Listed,
    nodes: &BTreeSet<&[Step]>,
    text: &Text,
) -> Result<bool, Memory>
    requires { AllExist config.now nodes.now }
    ensures { IfOk result (λ it. it ≡ violations.is_named_node schema.now config.now text.now) }
{
    if names_one(alloc, schema, nodes, text)? {
        return Ok(true);
    }
    names_any(alloc, schema, config, text)
}

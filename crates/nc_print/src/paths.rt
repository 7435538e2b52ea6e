//! The names of modules that the text of a path has as prefixes (RFC 7950 9.13).
ghost use Rattle.std.specs.Prelude.{◌≡◌, fold, IfOk};
ghost use Rattle.std.specs.List.{zip};
ghost use Rattle.nc_schema.specs.PathTexts.{module_name};
ghost use Rattle.nc_protocol.specs.ModuleNames as names;

use crate::module_names::push_name;
use crate::value_types::push_value;
use nc_message::Bounds;
use nc_names::{Bound, Many, Memory, Path, Step, Text};
use nc_schema::{Kind, Node, Schema};
use std::alloc::Global;

// The name of a module, or the empty text where the schema has no module of that number.
fn module_name(schema: &Schema, number: u32) -> &str
    ensures { result.now ≡ module_name schema.now number }
{
    match schema.module(number) {
        Some(found) => found.name.as_str(),
        None => "",
    }
}

// Adds the binding of the module of a data node.
fn push_node(schema: &Schema, number: u32, bounds: &mut Many<Bound>) -> Result<(), Memory>
    ensures { IfOk result (λ _. bounds.new ≡ names.with_node schema.now bounds.old number) }
{
    let Some(node) = schema.node(number) else {
        return Ok(());
    };
    push_name(schema, module_name(schema, node.module).as_bytes(), bounds)
}

// Adds those of a key and its value.
fn push_key(schema: &Schema, key: u32, value: &Text, bounds: &mut Many<Bound>) -> Result<(), Memory>
    ensures { IfOk result (λ _. bounds.new ≡ names.with_key schema.now bounds.old (key, value.now)) }
{
    push_node(schema, key, bounds)?;
    push_value(schema, key, value, bounds)
}

// Adds those of the keys of a list entry.
fn push_keys(
    schema: &Schema,
    keys: &[u32],
    values: &[Text],
    bounds: &mut Many<Bound>,
) -> Result<(), Memory>
    ensures { IfOk result (λ _. bounds.new
        ≡ fold (names.with_key schema.now) bounds.old (zip keys.now values.now)) }
{
    for (key, value) in keys.iter().zip(values) {
        push_key(schema, *key, value, bounds)?;
    }
    Ok(())
}

// Adds those of the values of a leaf-list.
fn push_values(
    schema: &Schema,
    number: u32,
    values: &[Text],
    bounds: &mut Many<Bound>,
) -> Result<(), Memory>
    ensures { IfOk result (λ _. bounds.new
        ≡ fold (λ before value. names.with_value schema.now before number value) bounds.old values.now) }
{
    for value in values {
        push_value(schema, number, value, bounds)?;
    }
    Ok(())
}

// Adds those of the predicates of a step to that data node.
fn push_predicates(
    schema: &Schema,
    number: u32,
    node: &Node,
    values: &[Text],
    bounds: &mut Many<Bound>,
) -> Result<(), Memory>
    ensures { IfOk result (λ _. bounds.new
        ≡ names.with_predicates schema.now bounds.old number node.now.kind node.now.keys values.now) }
{
    match node.kind {
        Kind::List => push_keys(schema, node.keys.as_slice(), values, bounds),
        Kind::LeafList => push_values(schema, number, values, bounds),
        Kind::Container { .. } | Kind::Leaf => Ok(()),
    }
}

// Adds those of a step.
fn push_step(schema: &Schema, step: &Step, bounds: &mut Many<Bound>) -> Result<(), Memory>
    ensures { IfOk result (λ _. bounds.new ≡ names.with_step_names schema.now bounds.old step.now) }
{
    let Some(node) = schema.node(step.node) else {
        return Ok(());
    };
    push_node(schema, step.node, bounds)?;
    push_predicates(schema, step.node, node, step.keys.as_slice(), bounds)
}

// Adds those of steps.
fn push_steps(schema: &Schema, steps: &[Step], bounds: &mut Many<Bound>) -> Result<(), Memory>
    ensures { IfOk result (λ _. bounds.new ≡ fold (names.with_step_names schema.now) bounds.old steps.now) }
{
    for step in steps {
        push_step(schema, step, bounds)?;
    }
    Ok(())
}

/// The bindings of the module names that the text of a path has as prefixes, each once, in the order of first
/// use: those of its steps and keys, and of the values in it whose types have names. Want of memory alone is
/// an error.
pub fn path_bounds(alloc: Global, schema: &Schema, path: &Path) -> Result<Bounds, Memory>
    ensures { IfOk result (λ it. it ≡ names.path_bounds schema.now path.now) }
{
    let mut bounds = Many::new(alloc);
    push_steps(schema, path.steps.as_slice(), &mut bounds)?;
    Bounds::from_many(alloc, &bounds)
}

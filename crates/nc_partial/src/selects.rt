//! What the selects of a request for a partial lock name: nodes of the schema, by instance identifiers
//! (RFC 5717 2.4.1, RFC 7950 9.13).
ghost use Rattle.std.specs.Prelude.{◌≡◌, IfOk};
ghost use Rattle.nc_schema.specs.Values as values;
ghost use Rattle.nc_model.specs.Verdict as meant;
ghost use Rattle.nc_partial.specs.Selects.{paths_of};

use nc_message::Bounds;
use nc_names::{Many, Memory, Path, Step, Text};
use nc_paths::{instance_path, key_nodes};
use nc_protocol::Select;
use nc_schema::Schema;
use nc_types::{TypeFault, canonical};
use std::alloc::Global;

// The canonical text of a key at a node, where it is a value of the node's type.
fn canonical_key(
    alloc: Global,
    schema: &Schema,
    bounds: &Bounds,
    node: u32,
    key: &Text,
) -> Result<Option<Text>, Memory>
    ensures { IfOk result (λ it. it ≡ values.canonical schema.now node key.now bounds.now) }
{
    match canonical(alloc, schema, node, key.as_str(), bounds) {
        Ok(text) => Ok(Some(text)),
        Err(TypeFault::NotInType) => Ok(None),
        Err(TypeFault::Memory) => Err(Memory),
    }
}

// The canonical texts of the keys of a step.
#[tactic(auto, using(crate::proofs::SelectLemmas::next_key, crate::proofs::SelectLemmas::bad_key, crate::proofs::SelectLemmas::few_nodes, crate::proofs::SelectLemmas::every_key))]
fn canonical_keys(
    alloc: Global,
    schema: &Schema,
    bounds: &Bounds,
    nodes: &[u32],
    keys: &[Text],
) -> Result<Option<Many<Text>>, Memory>
    ensures { IfOk result (λ it. it ≡
        values.canonical_keys (λ number text. values.canonical schema.now number text bounds.now)
        nodes.now keys.now) }
{
    let mut texts = Many::new(alloc);
    for (place, key) in keys.iter().enumerate() {
        let Some(node) = nodes.get(place) else {
            return Ok(Some(texts));
        };
        let Some(text) = canonical_key(alloc, schema, bounds, *node, key)? else {
            return Ok(None);
        };
        texts.push(text)?;
    }
    Ok(Some(texts))
}

// A step with the canonical texts of its keys.
fn canonical_step(
    alloc: Global,
    schema: &Schema,
    bounds: &Bounds,
    step: &Step,
) -> Result<Option<Step>, Memory>
    ensures { IfOk result (λ it. it ≡
        values.canonical_step schema.now
        (λ number text. values.canonical schema.now number text bounds.now) step.now) }
{
    let nodes = key_nodes(alloc, schema, step.node)?;
    let keys = canonical_keys(
        alloc,
        schema,
        bounds,
        nodes.as_slice(),
        step.keys.as_slice(),
    )?;
    match keys {
        Some(keys) => Ok(Some(Step {
            node: step.node,
            keys,
        })),
        None => Ok(None),
    }
}

// Steps with the canonical texts of their keys.
#[tactic(auto, using(crate::proofs::SelectLemmas::next_step, crate::proofs::SelectLemmas::bad_step, crate::proofs::SelectLemmas::every_step))]
fn canonical_steps(
    alloc: Global,
    schema: &Schema,
    bounds: &Bounds,
    steps: &[Step],
) -> Result<Option<Many<Step>>, Memory>
    ensures { IfOk result (λ it. it ≡
        values.canonical_steps schema.now
        (λ number text. values.canonical schema.now number text bounds.now) steps.now) }
{
    let mut made = Many::new(alloc);
    for one in steps {
        let Some(step) = canonical_step(alloc, schema, bounds, one)? else {
            return Ok(None);
        };
        made.push(step)?;
    }
    Ok(Some(made))
}

// The path with the canonical texts of its keys.
fn with_canonical_keys(
    alloc: Global,
    schema: &Schema,
    bounds: &Bounds,
    path: &Path,
) -> Result<Option<Path>, Memory>
    ensures { IfOk result (λ it. it ≡ meant.with_canonical_keys schema.now bounds.now path.now) }
{
    match canonical_steps(alloc, schema, bounds, path.steps.as_slice())? {
        Some(steps) => Ok(Some(Path { steps })),
        None => Ok(None),
    }
}

// The node that a select names.
fn selected_path(alloc: Global, schema: &Schema, select: &Select) -> Result<Option<Path>, Memory>
    ensures { IfOk result (λ it. it ≡ meant.selected_path schema.now select.now) }
{
    match instance_path(alloc, schema, select.text.as_str(), &select.bounds)? {
        Some(path) => with_canonical_keys(alloc, schema, &select.bounds, &path),
        None => Ok(None),
    }
}

/// The nodes of the schema that selects name, in their order, with the canonical texts of their keys; `None`
/// where one of the selects is no instance identifier of the schema (RFC 5717 2.4.1). Whether the nodes exist
/// is not asked.
#[tactic(auto, using(crate::proofs::SelectLemmas::next_path, crate::proofs::SelectLemmas::bad_path, crate::proofs::SelectLemmas::every_path))]
pub fn paths_selected(
    alloc: Global,
    schema: &Schema,
    selects: &[Select],
) -> Result<Option<Many<Path>>, Memory>
    ensures { IfOk result (λ it. it ≡ paths_of schema.now selects.now) }
{
    let mut paths = Many::new(alloc);
    for select in selects {
        let Some(path) = selected_path(alloc, schema, select)? else {
            return Ok(None);
        };
        paths.push(path)?;
    }
    Ok(Some(paths))
}

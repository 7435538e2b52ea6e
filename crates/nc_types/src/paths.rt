//! Values that are paths: instance identifiers (RFC 7950 9.13) and node-instance identifiers (RFC 8341).
ghost use Rattle.std.specs.Prelude.{◌≡◌, Some, None, IfOk, IfErr};
ghost use Rattle.nc_schema.specs.Values as values;
ghost use Rattle.nc_types.specs.inner.Faults.{OnNotInType};

use crate::fault::TypeFault;
use crate::gives::Gives;
use nc_names::{Binds, Many, Path, Step, Text};
use nc_paths::{instance_path, key_nodes, node_pattern};
use nc_schema::{Pattern, PatternStep, Schema};
use std::alloc::Global;

#[tactic(auto, using(crate::proofs::KeyLemmas::next_key, crate::proofs::KeyLemmas::bad_key, crate::proofs::KeyLemmas::few_nodes, crate::proofs::KeyLemmas::every_key))]
// The canonical texts of keys.
fn canonical_keys<K: Gives, B: Binds>(
    gives: &K,
    alloc: Global,
    schema: &Schema,
    bounds: &B,
    nodes: &[u32],
    keys: &[Text],
) -> Result<Many<Text>, TypeFault>
    ensures ok { IfOk result (λ it. values.canonical_keys (K.gives schema.now (B.bound bounds.now))
        nodes.now keys.now ≡ Some it) }
    ensures refused { IfErr result (λ fault. OnNotInType fault (values.canonical_keys (K.gives schema.now
        (B.bound bounds.now)) nodes.now keys.now ≡ None)) }
{
    let mut out = Many::new(alloc);
    for (place, key) in keys.iter().enumerate() {
        let Some(node) = nodes.get(place) else {
            return Ok(out);
        };
        out.push(gives.give(alloc, schema, bounds, *node, key.as_str())?)?;
    }
    Ok(out)
}

// A step with canonical keys.
fn canonical_step<K: Gives, B: Binds>(
    gives: &K,
    alloc: Global,
    schema: &Schema,
    bounds: &B,
    step: &Step,
) -> Result<Step, TypeFault>
    ensures ok { IfOk result (λ it. values.canonical_step schema.now (K.gives schema.now (B.bound
        bounds.now)) step.now ≡ Some it) }
    ensures refused { IfErr result (λ fault. OnNotInType fault (values.canonical_step schema.now (K.gives
        schema.now (B.bound bounds.now)) step.now ≡ None)) }
{
    let nodes = key_nodes(alloc, schema, step.node)?;
    let keys = canonical_keys(
        gives,
        alloc,
        schema,
        bounds,
        nodes.as_slice(),
        step.keys.as_slice(),
    )?;
    Ok(Step {
        node: step.node,
        keys,
    })
}

#[tactic(auto, using(crate::proofs::KeyLemmas::next_step, crate::proofs::KeyLemmas::bad_step, crate::proofs::KeyLemmas::every_step))]
// Steps with canonical keys.
fn canonical_steps<K: Gives, B: Binds>(
    gives: &K,
    alloc: Global,
    schema: &Schema,
    bounds: &B,
    steps: &[Step],
) -> Result<Many<Step>, TypeFault>
    ensures ok { IfOk result (λ it. values.canonical_steps schema.now (K.gives schema.now (B.bound
        bounds.now)) steps.now ≡ Some it) }
    ensures refused { IfErr result (λ fault. OnNotInType fault (values.canonical_steps schema.now (K.gives
        schema.now (B.bound bounds.now)) steps.now ≡ None)) }
{
    let mut out = Many::new(alloc);
    for one in steps {
        let step = canonical_step(gives, alloc, schema, bounds, one)?;
        out.push(step)?;
    }
    Ok(out)
}

/// The text of an instance identifier.
#[tactic(auto, unfolding(nc_schema::specs::Values::instance_text))]
pub(crate) fn instance_text<K: Gives, B: Binds>(
    gives: &K,
    alloc: Global,
    schema: &Schema,
    bounds: &B,
    text: &str,
) -> Result<Text, TypeFault>
    ensures ok { IfOk result (λ it. values.instance_text schema.now (K.gives schema.now) (B.bound
        bounds.now) text.now ≡ Some it) }
    ensures refused { IfErr result (λ fault. OnNotInType fault (values.instance_text schema.now (K.gives
        schema.now) (B.bound bounds.now) text.now ≡ None)) }
{
    let Some(path) = instance_path(alloc, schema, text, bounds)? else {
        return Err(TypeFault::NotInType);
    };
    let steps = canonical_steps(gives, alloc, schema, bounds, path.steps.as_slice())?;
    let mut out = Text::new(alloc);
    schema.path_text(&Path { steps }, &mut out)?;
    Ok(out)
}

#[tactic(auto, using(crate::proofs::KeyLemmas::next_given, crate::proofs::KeyLemmas::bad_given, crate::proofs::KeyLemmas::left_out, crate::proofs::KeyLemmas::few_given, crate::proofs::KeyLemmas::every_given))]
// The canonical texts of keys that may be left out.
fn canonical_given<K: Gives, B: Binds>(
    gives: &K,
    alloc: Global,
    schema: &Schema,
    bounds: &B,
    nodes: &[u32],
    keys: &[Option<Text>],
) -> Result<Many<Option<Text>>, TypeFault>
    ensures ok { IfOk result (λ it. values.canonical_given (K.gives schema.now (B.bound bounds.now))
        nodes.now keys.now ≡ Some it) }
    ensures refused { IfErr result (λ fault. OnNotInType fault (values.canonical_given (K.gives schema.now
        (B.bound bounds.now)) nodes.now keys.now ≡ None)) }
{
    let mut out = Many::new(alloc);
    for (place, key) in keys.iter().enumerate() {
        let Some(node) = nodes.get(place) else {
            return Ok(out);
        };
        match key {
            Some(text) => out.push(Some(gives.give(alloc, schema, bounds, *node, text.as_str())?))?,
            None => out.push(None)?,
        }
    }
    Ok(out)
}

// A step with canonical keys, where they are given.
fn canonical_part<K: Gives, B: Binds>(
    gives: &K,
    alloc: Global,
    schema: &Schema,
    bounds: &B,
    step: &PatternStep,
) -> Result<PatternStep, TypeFault>
    ensures ok { IfOk result (λ it. values.canonical_part schema.now (K.gives schema.now (B.bound
        bounds.now)) step.now ≡ Some it) }
    ensures refused { IfErr result (λ fault. OnNotInType fault (values.canonical_part schema.now (K.gives
        schema.now (B.bound bounds.now)) step.now ≡ None)) }
{
    let nodes = key_nodes(alloc, schema, step.node)?;
    let keys = canonical_given(
        gives,
        alloc,
        schema,
        bounds,
        nodes.as_slice(),
        step.keys.as_slice(),
    )?;
    Ok(PatternStep {
        node: step.node,
        keys,
    })
}

#[tactic(auto, using(crate::proofs::KeyLemmas::next_part, crate::proofs::KeyLemmas::bad_part, crate::proofs::KeyLemmas::every_part))]
// Steps of a pattern with canonical keys.
fn canonical_pattern<K: Gives, B: Binds>(
    gives: &K,
    alloc: Global,
    schema: &Schema,
    bounds: &B,
    steps: &[PatternStep],
) -> Result<Many<PatternStep>, TypeFault>
    ensures ok { IfOk result (λ it. values.canonical_pattern schema.now (K.gives schema.now (B.bound
        bounds.now)) steps.now ≡ Some it) }
    ensures refused { IfErr result (λ fault. OnNotInType fault (values.canonical_pattern schema.now (K.gives
        schema.now (B.bound bounds.now)) steps.now ≡ None)) }
{
    let mut out = Many::new(alloc);
    for one in steps {
        let step = canonical_part(gives, alloc, schema, bounds, one)?;
        out.push(step)?;
    }
    Ok(out)
}

/// The text of a node-instance identifier.
#[tactic(auto, unfolding(nc_schema::specs::Values::node_instance_text))]
pub(crate) fn node_instance_text<K: Gives, B: Binds>(
    gives: &K,
    alloc: Global,
    schema: &Schema,
    bounds: &B,
    text: &str,
) -> Result<Text, TypeFault>
    ensures ok { IfOk result (λ it. values.node_instance_text schema.now (K.gives schema.now) (B.bound
        bounds.now) text.now ≡ Some it) }
    ensures refused { IfErr result (λ fault. OnNotInType fault (values.node_instance_text schema.now
        (K.gives schema.now) (B.bound bounds.now) text.now ≡ None)) }
{
    let Some(pattern) = node_pattern(alloc, schema, text, bounds)? else {
        return Err(TypeFault::NotInType);
    };
    let steps = canonical_pattern(gives, alloc, schema, bounds, pattern.steps.as_slice())?;
    let mut out = Text::new(alloc);
    schema.pattern_text(&Pattern { steps }, &mut out)?;
    Ok(out)
}

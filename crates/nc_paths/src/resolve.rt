//! What written steps name in a schema.
ghost use Rattle.std.specs.Prelude.{◌≡◌, false, None, Some, IfOk, IfErr, count_by, is_some, option_copied};
ghost use Rattle.std.specs.Option.{option_map_or};
ghost use Rattle.nc_paths.specs.Stops.{OnRefused};
ghost use Rattle.nc_schema.specs.Bindings as modules;
ghost use Rattle.nc_schema.specs.InstancePaths as paths;

use crate::stop::Stop;
use nc_names::{Binds, Copies, Many, Memory, Module, QName, Step, Text};
use nc_schema::{Kind, PatternStep, Schema, WrittenName, WrittenPredicate, WrittenStep};
use std::alloc::Global;

/// The module of a namespace.
pub fn module_of<'a>(schema: &'a Schema, space: &Text) -> Option<&'a Module>
    ensures { option_copied result ≡ modules.module_of schema.now space.now }
{
    for found in schema.modules() {
        if found.space == *space {
            return Some(found);
        }
    }
    None
}

/// The module for whose namespace the prefix of a name stands.
fn module_named<'a, B: Binds>(
    schema: &'a Schema,
    bounds: &B,
    written: &WrittenName,
) -> Option<&'a Module>
    ensures { option_copied result ≡ paths.module_named schema.now (B.bound bounds.now) written.now }
{
    let space = bounds.space_of(&written.prefix)?;
    module_of(schema, space)
}

/// The qualified name for which a written one stands.
pub fn qualified<B: Binds>(
    schema: &Schema,
    bounds: &B,
    written: &WrittenName,
) -> Result<QName, Stop>
    ensures ok { IfOk result (λ it. paths.qualified schema.now (B.bound bounds.now) written.now ≡ Some it) }
    ensures refused { IfErr result (λ stop. OnRefused stop (paths.qualified schema.now (B.bound bounds.now)
        written.now ≡ None)) }
{
    let Some(found) = module_named(schema, bounds, written) else {
        return Err(Stop::Refused);
    };
    Ok(QName {
        space: found.space.copy()?,
        name: written.name.copy()?,
    })
}

// Whether the data node has the name for which a written one stands.
fn is_named<B: Binds>(schema: &Schema, bounds: &B, key: u32, written: &WrittenName) -> bool
    ensures { result ≡ option_map_or (paths.has_name schema.now key) (paths.qualified schema.now (B.bound
        bounds.now) written.now) false }
{
    let Some(found) = module_named(schema, bounds, written) else {
        return false;
    };
    match schema.node(key) {
        Some(node) => node.name.space == found.space && node.name.name == written.name,
        None => false,
    }
}

/// Whether the predicate of an entry of the node is that of the key.
pub fn is_of_key<B: Binds>(
    schema: &Schema,
    bounds: &B,
    number: u32,
    key: u32,
    written: &Option<WrittenName>,
) -> bool
    ensures { result ≡ paths.is_of_key schema.now (B.bound bounds.now) number key written.now }
{
    match written {
        None => key == number,
        Some(name) => key != number && is_named(schema, bounds, key, name),
    }
}

// The value of a key, where a predicate gives it.
fn key_given<'a, B: Binds>(
    schema: &Schema,
    bounds: &B,
    number: u32,
    written: &'a [WrittenPredicate],
    key: u32,
) -> Option<&'a Text>
    ensures { option_copied result ≡ paths.key_given schema.now (B.bound bounds.now) number written.now key }
{
    for one in written {
        if is_of_key(schema, bounds, number, key, &one.key) {
            return Some(&one.value);
        }
    }
    None
}

/// The data nodes whose values name an entry of a node.
pub fn key_nodes(alloc: Global, schema: &Schema, number: u32) -> Result<Many<u32>, Memory>
    ensures { IfOk result (λ it. it ≡ paths.key_nodes schema.now number) }
{
    let mut nodes = Many::new(alloc);
    let Some(node) = schema.node(number) else {
        return Ok(nodes);
    };
    match node.kind {
        Kind::List => node.keys.copy(),
        Kind::LeafList => {
            nodes.push(number)?;
            Ok(nodes)
        }
        Kind::Container { .. } | Kind::Leaf => Ok(nodes),
    }
}

// The values of the keys.
fn values_given<B: Binds>(
    alloc: Global,
    schema: &Schema,
    bounds: &B,
    number: u32,
    written: &[WrittenPredicate],
) -> Result<Many<Option<Text>>, Memory>
    ensures { IfOk result (λ it. it ≡ paths.values_given schema.now (B.bound bounds.now) number written.now) }
{
    let nodes = key_nodes(alloc, schema, number)?;
    let mut values = Many::new(alloc);
    for key in nodes.as_slice() {
        values.push(copy_given(key_given(schema, bounds, number, written, *key))?)?;
    }
    Ok(values)
}

// The same text, where there is one.
fn copy_given(given: Option<&Text>) -> Result<Option<Text>, Memory>
    ensures { IfOk result (λ it. it ≡ option_copied given.entry) }
{
    match given {
        Some(text) => Ok(Some(text.copy()?)),
        None => Ok(None),
    }
}

/// The values that predicates give to the keys of an entry of a node.
pub(crate) fn keys_given<B: Binds>(
    alloc: Global,
    schema: &Schema,
    bounds: &B,
    number: u32,
    written: &[WrittenPredicate],
) -> Result<Many<Option<Text>>, Stop>
    ensures ok { IfOk result (λ it. paths.keys_given schema.now (B.bound bounds.now) number written.now ≡
        Some it) }
    ensures refused { IfErr result (λ stop. OnRefused stop (paths.keys_given schema.now (B.bound bounds.now)
        number written.now ≡ None)) }
{
    let values = values_given(alloc, schema, bounds, number, written)?;
    if count_some(values.as_slice()) == written.len() {
        Ok(values)
    } else {
        Err(Stop::Refused)
    }
}

// How many values there are.
fn count_some(values: &[Option<Text>]) -> usize
    ensures { result ≡ count_by is_some values.now }
{
    let mut count = 0;
    for value in values {
        if value.is_some() {
            count += 1;
        }
    }
    count
}

#[tactic(auto, unfolding(nc_schema::specs::InstancePaths::pattern_step))]
// The step of a pattern that a written step is, below that node or at the top.
fn pattern_step<B: Binds>(
    alloc: Global,
    schema: &Schema,
    bounds: &B,
    above: Option<u32>,
    written: &WrittenStep,
) -> Result<PatternStep, Stop>
    ensures ok { IfOk result (λ it. paths.pattern_step schema.now (B.bound bounds.now) above written.now ≡
        Some it) }
    ensures refused { IfErr result (λ stop. OnRefused stop (paths.pattern_step schema.now (B.bound
        bounds.now) above written.now ≡ None)) }
{
    let name = qualified(schema, bounds, &written.name)?;
    let Some(number) = schema.child(above, &name) else {
        return Err(Stop::Refused);
    };
    let keys = keys_given(alloc, schema, bounds, number, written.predicates.as_slice())?;
    Ok(PatternStep { node: number, keys })
}

/// The pattern to which written steps lead from the top.
#[tactic(auto, using(crate::proofs::PatternLemmas::next_pattern, crate::proofs::PatternLemmas::bad_pattern, crate::proofs::PatternLemmas::whole_pattern))]
pub(crate) fn pattern_steps<B: Binds>(
    alloc: Global,
    schema: &Schema,
    bounds: &B,
    written: &[WrittenStep],
) -> Result<Many<PatternStep>, Stop>
    ensures ok { IfOk result (λ it. paths.pattern_steps schema.now (B.bound bounds.now) None written.now ≡
        Some it) }
    ensures refused { IfErr result (λ stop. OnRefused stop (paths.pattern_steps schema.now (B.bound
        bounds.now) None written.now ≡ None)) }
{
    let mut above = None;
    let mut steps = Many::new(alloc);
    for one in written {
        let step = pattern_step(alloc, schema, bounds, above, one)?;
        above = Some(step.node);
        steps.push(step)?;
    }
    Ok(steps)
}

/// The keys, where none is left out.
#[tactic(auto, using(crate::proofs::PatternLemmas::next_key, crate::proofs::PatternLemmas::no_key, crate::proofs::PatternLemmas::every_key))]
pub(crate) fn all_given(alloc: Global, keys: &[Option<Text>]) -> Result<Many<Text>, Stop>
    ensures ok { IfOk result (λ it. paths.all_given keys.now ≡ Some it) }
    ensures refused { IfErr result (λ stop. OnRefused stop (paths.all_given keys.now ≡ None)) }
{
    let mut given = Many::new(alloc);
    for key in keys {
        match key {
            Some(text) => given.push(text.copy()?)?,
            None => return Err(Stop::Refused),
        }
    }
    Ok(given)
}

// One step of a path, where no key is left out.
fn instance_step(alloc: Global, step: &PatternStep) -> Result<Step, Stop>
    ensures ok { IfOk result (λ it. paths.instance_step step.now ≡ Some it) }
    ensures refused { IfErr result (λ stop. OnRefused stop (paths.instance_step step.now ≡ None)) }
{
    let keys = all_given(alloc, step.keys.as_slice())?;
    Ok(Step {
        node: step.node,
        keys,
    })
}

/// The steps of a path, where no key is left out.
#[tactic(auto, using(crate::proofs::PatternLemmas::next_instance, crate::proofs::PatternLemmas::bad_instance, crate::proofs::PatternLemmas::whole_instance))]
pub(crate) fn instance_steps(alloc: Global, pattern: &[PatternStep]) -> Result<Many<Step>, Stop>
    ensures ok { IfOk result (λ it. paths.instance_steps pattern.now ≡ Some it) }
    ensures refused { IfErr result (λ stop. OnRefused stop (paths.instance_steps pattern.now ≡ None)) }
{
    let mut steps = Many::new(alloc);
    for one in pattern {
        let step = instance_step(alloc, one)?;
        steps.push(step)?;
    }
    Ok(steps)
}

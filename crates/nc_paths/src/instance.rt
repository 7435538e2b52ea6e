//! Instance identifiers (RFC 7950 9.13), node-instance identifiers (RFC 8341 3.5.2), the keys of an anchor
//! (RFC 7950 7.8.6) and the paths of leafrefs (RFC 7950 9.9.2).
ghost use Rattle.std.specs.Prelude.{◌≡◌, None, Some, IfOk, IfErr};
ghost use Rattle.nc_paths.specs.Stops.{OnRefused};
ghost use Rattle.nc_schema.specs.InstancePaths as paths;

use crate::leafref::read_leafref;
use crate::resolve::{all_given, instance_steps, keys_given, pattern_steps};
use crate::steps::{only_predicates, steps};
use crate::stop::Stop;
use nc_names::{Binds, Many, Memory, Path, Text};
use nc_schema::{Kind, LeafrefEnd, Pattern, Schema};
use std::alloc::Global;

// The path of an instance identifier.
#[tactic(auto, unfolding(nc_schema::specs::InstancePaths::instance_path))]
fn read_instance<B: Binds>(
    alloc: Global,
    schema: &Schema,
    text: &str,
    bounds: &B,
) -> Result<Path, Stop>
    ensures ok { IfOk result (λ it. paths.instance_path schema.now text.now (B.bound bounds.now) ≡ Some it) }
    ensures refused { IfErr result (λ stop. OnRefused stop (paths.instance_path schema.now text.now (B.bound
        bounds.now) ≡ None)) }
{
    let written = steps(alloc, text)?;
    let pattern = pattern_steps(alloc, schema, bounds, written.as_slice())?;
    let steps = instance_steps(alloc, pattern.as_slice())?;
    Ok(Path { steps })
}

// The pattern of a node-instance identifier.
#[tactic(auto, unfolding(nc_schema::specs::InstancePaths::node_pattern))]
fn read_pattern<B: Binds>(
    alloc: Global,
    schema: &Schema,
    text: &str,
    bounds: &B,
) -> Result<Pattern, Stop>
    ensures ok { IfOk result (λ it. paths.node_pattern schema.now text.now (B.bound bounds.now) ≡ Some it) }
    ensures refused { IfErr result (λ stop. OnRefused stop (paths.node_pattern schema.now text.now (B.bound
        bounds.now) ≡ None)) }
{
    if text == "/" {
        return Ok(Pattern {
            steps: Many::new(alloc),
        });
    }
    let written = steps(alloc, text)?;
    let steps = pattern_steps(alloc, schema, bounds, written.as_slice())?;
    Ok(Pattern { steps })
}

// Whether the node is a list.
fn is_list(schema: &Schema, number: u32) -> bool
    ensures { result ≡ paths.is_list_there schema.now number }
{
    match schema.node(number) {
        Some(node) => node.kind == Kind::List,
        None => false,
    }
}

// The keys of an anchor.
#[tactic(auto, unfolding(nc_schema::specs::InstancePaths::entry_keys))]
fn read_entry<B: Binds>(
    alloc: Global,
    schema: &Schema,
    number: u32,
    text: &str,
    bounds: &B,
) -> Result<Many<Text>, Stop>
    ensures ok { IfOk result (λ it. paths.entry_keys schema.now number text.now (B.bound bounds.now) ≡ Some
        it) }
    ensures refused { IfErr result (λ stop. OnRefused stop (paths.entry_keys schema.now number text.now
        (B.bound bounds.now) ≡ None)) }
{
    let written = only_predicates(alloc, text)?;
    let keys = keys_given(alloc, schema, bounds, number, written.as_slice())?;
    if is_list(schema, number) {
        all_given(alloc, keys.as_slice())
    } else {
        Err(Stop::Refused)
    }
}

/// The path that an instance identifier names, its keys as they are written; `None` where it names none.
/// A prefix stands for its namespace in `bounds`, of which the first of a prefix counts (RFC 7950 9.13).
pub fn instance_path<B: Binds>(
    alloc: Global,
    schema: &Schema,
    text: &str,
    bounds: &B,
) -> Result<Option<Path>, Memory>
    ensures { IfOk result (λ it. it ≡ paths.instance_path schema.now text.now (B.bound bounds.now)) }
{
    match read_instance(alloc, schema, text, bounds) {
        Ok(path) => Ok(Some(path)),
        Err(Stop::Refused) => Ok(None),
        Err(Stop::Memory) => Err(Memory),
    }
}

/// The pattern that a node-instance identifier names, its keys as they are written; `None` where it names
/// none (RFC 8341 3.5.2).
pub fn node_pattern<B: Binds>(
    alloc: Global,
    schema: &Schema,
    text: &str,
    bounds: &B,
) -> Result<Option<Pattern>, Memory>
    ensures { IfOk result (λ it. it ≡ paths.node_pattern schema.now text.now (B.bound bounds.now)) }
{
    match read_pattern(alloc, schema, text, bounds) {
        Ok(pattern) => Ok(Some(pattern)),
        Err(Stop::Refused) => Ok(None),
        Err(Stop::Memory) => Err(Memory),
    }
}

/// The keys, as they are written, of the entry of a list that its key predicates name; `None` where they
/// name none (RFC 7950 7.8.6).
pub fn entry_keys<B: Binds>(
    alloc: Global,
    schema: &Schema,
    number: u32,
    text: &str,
    bounds: &B,
) -> Result<Option<Many<Text>>, Memory>
    ensures { IfOk result (λ it. it ≡ paths.entry_keys schema.now number text.now (B.bound bounds.now)) }
{
    match read_entry(alloc, schema, number, text, bounds) {
        Ok(keys) => Ok(Some(keys)),
        Err(Stop::Refused) => Ok(None),
        Err(Stop::Memory) => Err(Memory),
    }
}

/// Where the path of a leafref ends, from the leaf of that number; `None` where it ends at no leaf or
/// leaf-list. A name without a prefix is in the namespace of the leaf (RFC 7950 6.4.1, 9.9.2).
pub fn leafref_end<B: Binds>(
    alloc: Global,
    schema: &Schema,
    leaf: u32,
    text: &str,
    bounds: &B,
) -> Result<Option<LeafrefEnd>, Memory>
    ensures { IfOk result (λ it. it ≡ paths.leafref_end schema.now leaf text.now (B.bound bounds.now)) }
{
    match read_leafref(alloc, schema, leaf, text, bounds) {
        Ok(end) => Ok(Some(end)),
        Err(Stop::Refused) => Ok(None),
        Err(Stop::Memory) => Err(Memory),
    }
}

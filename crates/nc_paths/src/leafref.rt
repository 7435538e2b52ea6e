//! The paths of leafrefs (RFC 7950 9.9.2).
ghost use Rattle.std.specs.Prelude.{◌≡◌, ◌==◌, ◌∷◌, None, Some, IfOk, IfErr, option_copied};
ghost use Rattle.std.specs.List.{slice_split};
ghost use Rattle.nc_names.specs.Signs.{slash};
ghost use Rattle.nc_paths.specs.Parts.{IsNext, parts_of};
ghost use Rattle.nc_paths.specs.Stops.{OnRefused};
ghost use Rattle.nc_schema.specs.InstancePaths as paths;

use crate::cut::up_to;
use crate::resolve::qualified;
use crate::steps::own_name;
use crate::stop::Stop;
use crate::words::read_name;
use nc_names::{Binds, Copies, QName, Text, is_identifier};
use nc_schema::{Kind, LeafrefEnd, Schema};
use std::alloc::Global;

/// What stands before the next slash, and the text after it, where there is one.
#[tactic(auto, using(crate::proofs::LeafrefLemmas::part_cut, crate::proofs::LeafrefLemmas::part_last))]
pub fn next_part(text: &str) -> (&str, Option<&str>)
    ensures parts { slice_split (λ c. c == slash) text.now ≡ result.0.now ∷ parts_of (option_copied
        result.1) }
    ensures next { IsNext text.now result.0.now (option_copied result.1) }
{
    match up_to(text, '/') {
        Some((part, rest)) => (part, Some(rest)),
        None => (text, None),
    }
}

/// The name of a step: `prefix:name`, or `name` in that namespace.
pub fn leafref_name<B: Binds>(
    alloc: Global,
    schema: &Schema,
    space: &Text,
    bounds: &B,
    part: &str,
) -> Result<QName, Stop>
    ensures ok { IfOk result (λ it. paths.leafref_name schema.now space.now (B.bound bounds.now) part.now ≡
        Some it) }
    ensures refused { IfErr result (λ stop. OnRefused stop (paths.leafref_name schema.now space.now (B.bound
        bounds.now) part.now ≡ None)) }
{
    if is_identifier(part.as_bytes()) {
        return Ok(QName {
            space: space.copy()?,
            name: Text::from_text(alloc, part)?,
        });
    }
    let Some((written, rest)) = read_name(part) else {
        return Err(Stop::Refused);
    };
    if !rest.is_empty() {
        return Err(Stop::Refused);
    }
    let name = own_name(alloc, written)?;
    qualified(schema, bounds, &name)
}

// The node to which names lead down.
fn leads_down<B: Binds>(
    alloc: Global,
    schema: &Schema,
    space: &Text,
    bounds: &B,
    above: Option<u32>,
    parts: Option<&str>,
) -> Result<u32, Stop>
    ensures ok { IfOk result (λ it. paths.leads_down schema.now space.now (B.bound bounds.now) above
        (parts_of (option_copied parts.entry)) ≡ Some it) }
    ensures refused { IfErr result (λ stop. OnRefused stop (paths.leads_down schema.now space.now (B.bound
        bounds.now) above (parts_of (option_copied parts.entry)) ≡ None)) }
{
    let mut above = above;
    let mut left = parts;
    while let Some(rest) = left {
        let (part, more) = next_part(rest);
        let name = leafref_name(alloc, schema, space, bounds, part)?;
        let Some(number) = schema.child(above, &name) else {
            return Err(Stop::Refused);
        };
        above = Some(number);
        left = more;
    }
    match above {
        Some(number) => Ok(number),
        None => Err(Stop::Refused),
    }
}

// The end of a path that turns down at a node, or at the top: a leaf or leaf-list.
fn leafref_below<B: Binds>(
    alloc: Global,
    schema: &Schema,
    space: &Text,
    bounds: &B,
    above: Option<u32>,
    parts: Option<&str>,
) -> Result<LeafrefEnd, Stop>
    ensures ok { IfOk result (λ it. paths.leafref_below schema.now space.now (B.bound bounds.now) above
        (parts_of (option_copied parts.entry)) ≡ Some it) }
    ensures refused { IfErr result (λ stop. OnRefused stop (paths.leafref_below schema.now space.now
        (B.bound bounds.now) above (parts_of (option_copied parts.entry)) ≡ None)) }
{
    let target = leads_down(alloc, schema, space, bounds, above, parts)?;
    let Some(node) = schema.node(target) else {
        return Err(Stop::Refused);
    };
    match node.kind {
        Kind::Leaf | Kind::LeafList => Ok(LeafrefEnd { target, above }),
        Kind::Container { .. } | Kind::List => Err(Stop::Refused),
    }
}

/// The node above a node.
pub fn parent_of(schema: &Schema, number: u32) -> Option<u32>
    ensures { result ≡ paths.parent_of schema.now number }
{
    schema.node(number)?.parent
}

// The end of a path from a node: each `..` leads to the one above.
fn leafref_from<B: Binds>(
    alloc: Global,
    schema: &Schema,
    space: &Text,
    bounds: &B,
    above: Option<u32>,
    parts: Option<&str>,
) -> Result<LeafrefEnd, Stop>
    ensures ok { IfOk result (λ it. paths.leafref_from schema.now space.now (B.bound bounds.now) above
        (parts_of (option_copied parts.entry)) ≡ Some it) }
    ensures refused { IfErr result (λ stop. OnRefused stop (paths.leafref_from schema.now space.now (B.bound
        bounds.now) above (parts_of (option_copied parts.entry)) ≡ None)) }
{
    let mut above = above;
    let mut left = parts;
    while let Some(rest) = left {
        let (part, more) = next_part(rest);
        if part != ".." {
            return leafref_below(alloc, schema, space, bounds, above, left);
        }
        let Some(number) = above else {
            return Err(Stop::Refused);
        };
        above = parent_of(schema, number);
        left = more;
    }
    Err(Stop::Refused)
}

/// The end of the path of a leafref.
#[tactic(auto, unfolding(nc_schema::specs::InstancePaths::leafref_end))]
pub(crate) fn read_leafref<B: Binds>(
    alloc: Global,
    schema: &Schema,
    leaf: u32,
    text: &str,
    bounds: &B,
) -> Result<LeafrefEnd, Stop>
    ensures ok { IfOk result (λ it. paths.leafref_end schema.now leaf text.now (B.bound bounds.now) ≡ Some
        it) }
    ensures refused { IfErr result (λ stop. OnRefused stop (paths.leafref_end schema.now leaf text.now
        (B.bound bounds.now) ≡ None)) }
{
    let Some(node) = schema.node(leaf) else {
        return Err(Stop::Refused);
    };
    let (part, parts) = next_part(text);
    if part.is_empty() {
        leafref_below(alloc, schema, &node.name.space, bounds, None, parts)
    } else if part == ".." {
        let above = parent_of(schema, leaf);
        leafref_from(alloc, schema, &node.name.space, bounds, above, parts)
    } else {
        Err(Stop::Refused)
    }
}

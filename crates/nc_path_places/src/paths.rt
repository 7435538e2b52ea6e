//! Instance identifiers (RFC 7950 9.13), node-instance identifiers (RFC 8341 3.5.2) and the paths of leafrefs
//! (RFC 7950 9.9.2): what each names, or the place of its fault.
ghost use Rattle.std.specs.Prelude.{◌≡◌, ◌≤◌, ℕ, length, min, is_some, None, Some, Ok, IfOk, IfErr};
ghost use Rattle.nc_path_places.specs.Apart.{HasKeysApart};
ghost use Rattle.nc_path_places.specs.Faults.{IsFaultNumber, OnBadPath, most_place};
ghost use Rattle.nc_schema.specs.InstancePaths as paths;

use crate::fault::PathFault;
use crate::leafref_place::leafref_place;
use crate::place::{pattern_place, place};
use nc_names::{Binds, Memory, Path};
use nc_paths::{instance_path, leafref_end, node_pattern};
use nc_schema::{LeafrefEnd, Pattern, Schema};
use std::alloc::Global;

// The fault of a text that is refused, by the place that was found.
fn bad_path(found: Result<usize, Memory>) -> PathFault
    ensures { OnBadPath result (λ at. (place : ℕ) × (found ≡ Ok place) × (at ≡ min place most_place)) }
{
    match found {
        Ok(at) => PathFault::BadPath {
            at: at.min(u32::MAX as usize) as u32,
        },
        Err(Memory) => PathFault::Memory,
    }
}

/// The path that an instance identifier names, as `instance_path` gives it; where it names none, the place of
/// the fault (RFC 7950 9.13).
pub fn instance_id<B: Binds>(
    alloc: Global,
    schema: &Schema,
    text: &str,
    bounds: &B,
) -> Result<Path, PathFault>
    ensures ok { IfOk result (λ it. paths.instance_path schema.now text.now (B.bound bounds.now) ≡ Some it) }
    ensures bad { IfErr result (λ fault. OnBadPath fault (λ at. paths.instance_path schema.now text.now
        (B.bound bounds.now) ≡ None)) }
    ensures within { IfErr result (λ fault. OnBadPath fault (λ at. at ≤ length text.now)) }
    ensures place { IfErr result (λ fault. OnBadPath fault (λ at. HasKeysApart schema.now → IsFaultNumber (λ
        other. is_some (paths.instance_path schema.now other (B.bound bounds.now))) text.now at)) }
{
    match instance_path(alloc, schema, text, bounds)? {
        Some(path) => Ok(path),
        None => Err(bad_path(place(alloc, schema, text, bounds, true))),
    }
}

/// The pattern that a node-instance identifier names, as `node_pattern` gives it; where it names none, the
/// place of the fault (RFC 8341 3.5.2).
pub fn node_instance_id<B: Binds>(
    alloc: Global,
    schema: &Schema,
    text: &str,
    bounds: &B,
) -> Result<Pattern, PathFault>
    ensures ok { IfOk result (λ it. paths.node_pattern schema.now text.now (B.bound bounds.now) ≡ Some it) }
    ensures bad { IfErr result (λ fault. OnBadPath fault (λ at. paths.node_pattern schema.now text.now
        (B.bound bounds.now) ≡ None)) }
    ensures within { IfErr result (λ fault. OnBadPath fault (λ at. at ≤ length text.now)) }
    ensures place { IfErr result (λ fault. OnBadPath fault (λ at. HasKeysApart schema.now → IsFaultNumber (λ
        other. is_some (paths.node_pattern schema.now other (B.bound bounds.now))) text.now at)) }
{
    match node_pattern(alloc, schema, text, bounds)? {
        Some(pattern) => Ok(pattern),
        None => Err(bad_path(pattern_place(alloc, schema, text, bounds))),
    }
}

/// Where the path of a leafref ends, as `leafref_end` gives it; where it ends nowhere, the place of the fault
/// (RFC 7950 9.9.2).
pub fn leafref_path<B: Binds>(
    alloc: Global,
    schema: &Schema,
    leaf: u32,
    text: &str,
    bounds: &B,
) -> Result<LeafrefEnd, PathFault>
    ensures ok { IfOk result (λ it. paths.leafref_end schema.now leaf text.now (B.bound bounds.now) ≡ Some
        it) }
    ensures bad { IfErr result (λ fault. OnBadPath fault (λ at. paths.leafref_end schema.now leaf text.now
        (B.bound bounds.now) ≡ None)) }
    ensures within { IfErr result (λ fault. OnBadPath fault (λ at. at ≤ length text.now)) }
    ensures place { IfErr result (λ fault. OnBadPath fault (λ at. IsFaultNumber (λ other. is_some
        (paths.leafref_end schema.now leaf other (B.bound bounds.now))) text.now at)) }
{
    match leafref_end(alloc, schema, leaf, text, bounds)? {
        Some(end) => Ok(end),
        None => Err(bad_path(leafref_place(alloc, schema, leaf, text, bounds))),
    }
}

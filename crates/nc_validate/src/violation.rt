//! The first constraint that a configuration breaks (RFC 7950 8.1, 8.3.3).
ghost use Rattle.std.specs.Prelude.{◌≡◌, slice_get, IfOk};
ghost use Rattle.nc_schema.specs.Violations.{violations};
ghost use Rattle.nc_protocol.specs.Refusals as meant;

use crate::structural::first_structural;
use nc_names::{CauseKind, Many, Memory};
use nc_protocol::Cause;
use nc_refs::first_reference;
use nc_schema::{Schema, Violation};
use nc_tree::{Config, Listed};
use std::alloc::Global;

// The first violation of a configuration: structural ones come before references.
#[tactic(auto, using(crate::proofs::Firsts::first_of_left, crate::proofs::Firsts::first_of_right))]
fn first_violation(
    alloc: Global,
    schema: &Schema,
    config: &Listed,
) -> Result<Option<Violation>, Memory>
    ensures { IfOk result (λ it. it ≡ slice_get (violations schema.now config.now) 0) }
{
    match first_structural(alloc, schema, config)? {
        Some(violation) => Ok(Some(violation)),
        None => first_reference(alloc, schema, config),
    }
}

// A violation as a cause. A choice at the top level is about no data node.
fn violation_cause(alloc: Global, violation: Violation) -> Cause
    ensures { result ≡ meant.violation_cause violation }
{
    let names = Many::new(alloc);
    match violation.kind {
        CauseKind::MandatoryChoice => Cause::inside(violation.kind, violation.path.steps, names),
        kind => Cause::at(kind, violation.path, names),
    }
}

/// The first constraint that a configuration breaks (RFC 7950 8.1), as the cause of a refusal. `None` means
/// that it is valid.
pub fn violation_in(
    alloc: Global,
    schema: &Schema,
    config: &Config,
) -> Result<Option<Cause>, Memory>
    ensures { IfOk result (λ it. it ≡ meant.violation_in schema.now config.now) }
{
    let rows = Listed::of(alloc, config)?;
    match first_violation(alloc, schema, &rows)? {
        Some(violation) => Ok(Some(violation_cause(alloc, violation))),
        None => Ok(None),
    }
}

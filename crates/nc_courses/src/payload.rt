//! Payloads that are read, or refused for their first fault (RFC 6241 7.2 and 7.3).
ghost use Rattle.std.specs.Prelude.{◌≡◌, IfOk};
ghost use Rattle.nc_protocol.specs.Payload as meant;

use nc_message::Elem;
use nc_names::{Many, Memory};
use nc_payload::{PayloadFault, edits, rows};
use nc_protocol::{Cause, Default3, Edit};
use nc_schema::Schema;
use nc_tree::Config;
use std::alloc::Global;

/// The edits of an edit-config's payload.
#[tactic(auto, using(crate::proofs::Told::told_ok, crate::proofs::Told::told_bad))]
pub fn edits_of(
    alloc: Global,
    schema: &Schema,
    default_operation: Default3,
    config: &Elem,
) -> Result<Result<Many<Edit>, Cause>, Memory>
    ensures { IfOk result (λ it. it ≡ meant.edits_of schema.now default_operation config.now) }
{
    match edits(alloc, schema, config, default_operation) {
        Ok(edits) => Ok(Ok(edits)),
        Err(PayloadFault::Bad(cause)) => Ok(Err(cause)),
        Err(PayloadFault::Memory) => Err(Memory),
    }
}

/// The rows of an inline configuration.
#[tactic(auto, using(crate::proofs::Told::told_ok, crate::proofs::Told::told_bad))]
pub fn rows_of(
    alloc: Global,
    schema: &Schema,
    config: &Elem,
) -> Result<Result<Config, Cause>, Memory>
    ensures { IfOk result (λ it. it ≡ meant.rows_of schema.now config.now) }
{
    match rows(alloc, schema, config) {
        Ok(rows) => Ok(Ok(rows)),
        Err(PayloadFault::Bad(cause)) => Ok(Err(cause)),
        Err(PayloadFault::Memory) => Err(Memory),
    }
}

//! The configuration that the bodies of a journal stand for.
ghost use Rattle.std.specs.Prelude.{◌≡◌, List, None, IfOk, IfSome};
ghost use Rattle.nc_names.specs.declared.path.Row.{Row};
ghost use Rattle.nc_schema.specs.Proper.{IsProperSchema};
ghost use Rattle.nc_store.specs.Reopening.{IsBase, IsValidRecord};
ghost use Rattle.nc_store.specs.inner.Finding.{FindsBase, FindsRecord, FindsValid};

use nc_names::{Bytes, Copies, Many, Memory};
use nc_record::{RecordFault, read_record};
use nc_schema::Schema;
use nc_tree::Config;
use nc_validate::violation_in;
use std::alloc::Global;

// The configuration, where it is valid.
fn valid(alloc: Global, schema: &Schema, config: Config) -> Result<Option<Config>, Memory>
    ensures { IfOk result (FindsValid schema.now config) }
{
    match violation_in(alloc, schema, &config)? {
        Some(_) => Ok(None),
        None => Ok(Some(config)),
    }
}

// The valid configuration that a body spells, if it spells one.
fn spelled(alloc: Global, schema: &Schema, body: &[u8]) -> Result<Option<Config>, Memory>
    requires { IsProperSchema schema.now }
    ensures { IfOk result (FindsRecord schema.now body.now) }
{
    match read_record(alloc, schema, body) {
        Ok(config) => valid(alloc, schema, config),
        Err(RecordFault::Unreadable) => Ok(None),
        Err(RecordFault::Memory) => Err(Memory),
    }
}

/// The configuration of the last body, or the initial one where there is none. `None` where the last body
/// spells no valid configuration.
pub(crate) fn base_of(
    alloc: Global,
    schema: &Schema,
    initial: &Config,
    bodies: &Many<Bytes>,
) -> Result<Option<Config>, Memory>
    requires { IsProperSchema schema.now }
    ensures { IfOk result (FindsBase schema.now initial.now bodies.now) }
{
    match bodies.last() {
        Some(body) => spelled(alloc, schema, body.as_slice()),
        None => Ok(Some(initial.copy()?)),
    }
}

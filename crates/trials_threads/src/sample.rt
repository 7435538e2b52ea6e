//! A machine of a schema without modules.
ghost use Rattle.std.specs.Prelude.{◌≡◌, [], IfSome};
ghost use Rattle.nc_schema.specs.Configuration.{IsConfiguration};
ghost use Rattle.nc_schema.specs.Proper.{IsProperSchema};
ghost use Rattle.nc_schema.specs.Tables.{no_tables};
ghost use Rattle.nc_schema.specs.Violations.{IsValid};

use nc_machine::Machine;
use nc_names::Many;
use nc_schema::Schema;
use nc_tree::{Config, MemKeeper};
use std::alloc::Global;
use std::sync::Arc;

// It is one that modules define, and the configuration without rows is one of it.
fn nothing_is_proper()
    ensures proper { IsProperSchema no_tables }
    ensures empty { IsConfiguration no_tables [] }
    ensures valid { IsValid no_tables [] }
{}

/// A machine without configuration, which keeps in memory. `None` is want of memory.
pub fn machine(alloc: Global) -> Option<Machine<MemKeeper>>
    ensures { IfSome result (λ it. it.count ≡ 0) }
{
    nothing_is_proper();
    let keeper = MemKeeper::new(Config::empty(alloc), Many::new(alloc));
    let schema = Arc::new(alloc, Schema::new(alloc)).ok()?;
    Machine::begin(alloc, schema, Config::empty(alloc), keeper).ok()
}

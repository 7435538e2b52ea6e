//! Rows are printed and read back.
ghost use Rattle.std.specs.Prelude.{◌≡◌, IfOk};
ghost use Rattle.nc_schema.specs.Configuration.{IsConfiguration};
ghost use Rattle.nc_schema.specs.Proper.{IsProperSchema};
ghost use Rattle.nc_protocol.specs.Printed as meant;
ghost use Rattle.nc_record.specs.inner.Given.{Gives};

use crate::RecordFault;
use nc_message::{Bounds, Elem};
use nc_names::{Many, Memory, QName, Row, Text};
use nc_payload::{PayloadFault, rows_of};
use nc_print::{print, printed_rows_are_read_back};
use nc_protocol::inline_is_configuration;
use nc_schema::Schema;
use nc_tree::Config;
use std::alloc::Global;

// The rows in one element. They are let go: there may be many.
fn printed(alloc: Global, schema: &Schema, rows: Many<Row>) -> Result<Elem, Memory>
    ensures { IfOk result (λ it. it.parts ≡ meant.printed schema.now rows) }
{
    let parts = print(alloc, schema, rows.as_slice())?;
    Ok(Elem {
        name: QName {
            space: Text::new(alloc),
            name: Text::new(alloc),
        },
        bounds: Bounds::new(),
        attrs: Many::new(alloc),
        parts,
    })
}

/// The configuration that these rows are. They are let go before it is made.
pub(crate) fn read_back(
    alloc: Global,
    schema: &Schema,
    given: Many<Row>,
) -> Result<Config, RecordFault>
    requires { IsProperSchema schema.now }
    ensures is { IfOk result (IsConfiguration schema.now) }
    ensures same { IsConfiguration schema.now given → Gives (λ it. it ≡ given) result }
{
    inline_is_configuration();
    printed_rows_are_read_back();
    let config = printed(alloc, schema, given)?;
    match rows_of(alloc, schema, config) {
        Ok(config) => Ok(config),
        Err(PayloadFault::Bad(_)) => Err(RecordFault::Unreadable),
        Err(PayloadFault::Memory) => Err(RecordFault::Memory),
    }
}

//! The one list of rows that records may mean.
ghost use Rattle.std.specs.Prelude.{◌≡◌, List, map, IfOk};
ghost use Rattle.nc_names.specs.declared.path.Row.{Row};
ghost use Rattle.nc_schema.specs.Configuration.{IsDataTree};
ghost use Rattle.nc_schema.specs.Proper.{IsProperSchema};
ghost use Rattle.nc_record.specs.inner.Given.{spelled_of};
ghost use Rattle.nc_record.specs.inner.Placing as placing;

use crate::row::row_of;
use crate::spelled::Spelled;
use nc_names::{Many, Memory, Row, Step};
use nc_schema::Schema;
use std::alloc::Global;

// The steps of the last row.
fn last_steps(rows: &Many<Row>) -> &[Step]
    ensures { result.now ≡ placing.last_steps rows.now }
{
    match rows.last() {
        Some(row) => row.path.steps.as_slice(),
        None => &[],
    }
}

// The rows of a data tree, by what their records tell.
fn rows_placed(alloc: Global, schema: &Schema, spelled: &[Spelled]) -> Result<Many<Row>, Memory>
    requires { IsProperSchema schema.now }
    ensures { (rows : List Row) → IsDataTree schema.now rows → spelled.now ≡ map spelled_of rows →
        IfOk result (λ it. it ≡ rows) }
{
    let mut rows = Many::new(alloc);
    let mut left = spelled;
    while let Some((first, more)) = left.split_first() {
        let row = row_of(alloc, schema, last_steps(&rows), first, more)?;
        rows.push(row)?;
        left = more;
    }
    Ok(rows)
}

/// The rows of a data tree, by what their records tell. These are let go: there may be many.
pub(crate) fn placed(
    alloc: Global,
    schema: &Schema,
    spelled: Many<Spelled>,
) -> Result<Many<Row>, Memory>
    requires { IsProperSchema schema.now }
    ensures { (rows : List Row) → IsDataTree schema.now rows → spelled ≡ map spelled_of rows →
        IfOk result (λ it. it ≡ rows) }
{
    rows_placed(alloc, schema, spelled.as_slice())
}

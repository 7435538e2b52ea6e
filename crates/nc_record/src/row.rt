//! One row, by the row before it.
ghost use Rattle.std.specs.Prelude.{◌≡◌, ◌<◌, ℕ, List, IfOk, IfSome};
ghost use Rattle.nc_names.specs.declared.path.Row.{Row};
ghost use Rattle.nc_names.specs.declared.path.Step.{Step};
ghost use Rattle.nc_schema.specs.Proper.{IsProperSchema};
ghost use Rattle.nc_record.specs.inner.Placing.{IsNextIn, IsOpenWay};
ghost use Rattle.nc_record.specs.inner.Placing as placing;

use crate::keys::{keys_of, value_of};
use crate::spelled::Spelled;
use nc_names::{Copies, Many, Memory, Path, Row, Step};
use nc_schema::Schema;
use std::alloc::Global;

// The node in which a data node stands.
fn parent_of(schema: &Schema, number: u32) -> Option<u32>
    requires { IsProperSchema schema.now }
    ensures parent { result ≡ placing.parent_of schema.now number }
    ensures lower { IfSome result (λ above. above < number) }
{
    match schema.node(number) {
        Some(node) => node.parent,
        None => None,
    }
}

// The step to a data node at a depth.
fn open_step(alloc: Global, before: &[Step], depth: usize, number: u32) -> Result<Step, Memory>
    ensures { IfOk result (λ it. it ≡ placing.open_step before.now depth number) }
{
    if let Some(step) = before.get(depth) {
        if step.node == number {
            return step.copy();
        }
    }
    Ok(Step {
        node: number,
        keys: Many::new(alloc),
    })
}

// The steps to the node in which a data node stands.
fn steps_above(
    alloc: Global,
    schema: &Schema,
    before: &[Step],
    number: u32,
) -> Result<Many<Step>, Memory>
    requires { IsProperSchema schema.now }
    ensures { (above : List Step) (step : Step) → step.node ≡ number →
        IsOpenWay schema.now before.now above step → IfOk result (λ it. it ≡ above) }
{
    let Some(parent) = parent_of(schema, number) else {
        return Ok(Many::new(alloc));
    };
    let mut steps = steps_above(alloc, schema, before, parent)?;
    steps.push(open_step(alloc, before, steps.len(), parent)?)?;
    Ok(steps)
}

/// A row, after one with these steps and before those that follow.
pub(crate) fn row_of(
    alloc: Global,
    schema: &Schema,
    before: &[Step],
    spelled: &Spelled,
    following: &[Spelled],
) -> Result<Row, Memory>
    requires { IsProperSchema schema.now }
    ensures { (done rest : List Row) (row : Row) →
        IsNextIn schema.now before.now spelled.now following.now done row rest →
        IfOk result (λ it. it ≡ row) }
{
    let keys = keys_of(alloc, schema, spelled, following)?;
    let value = value_of(schema, spelled)?;
    let mut steps = steps_above(alloc, schema, before, spelled.node)?;
    steps.push(Step {
        node: spelled.node,
        keys,
    })?;
    Ok(Row {
        path: Path { steps },
        value,
    })
}

//! Defaults put into a schema.
ghost use Rattle.std.specs.Prelude.{◌≡◌, length, IfOk, OnOk};
ghost use Rattle.nc_yang_leafs.specs.inner.Putting.{ArePut, IsPut};

use nc_names::{Copies, Many, Memory, Text};
use nc_schema::{Node, Schema};

// The data node with these defaults.
fn with_values(node: &Node, values: Many<Text>) -> Result<Node, Memory>
    ensures { IfOk result (λ it. it ≡ record node.now { defaults = values }) }
{
    let mut with = node.copy()?;
    with.defaults = values;
    Ok(with)
}

// Puts defaults at the data node of a number, which has none.
fn put(schema: &mut Schema, number: u32, values: Many<Text>) -> Result<(), Memory>
    ensures { OnOk result (IsPut number values schema.old schema.new) }
{
    if values.is_empty() {
        return Ok(());
    }
    let lower = schema.nodes();
    let Some(node) = schema.node(number) else {
        return Ok(());
    };
    let with = with_values(node, values)?;
    schema.set_node(number, with);
    Ok(())
}

/// Puts the defaults of each data node into a schema in which none has any.
pub(crate) fn put_all(schema: &mut Schema, found: Many<Many<Text>>) -> Result<(), Memory>
    requires { length found ≡ length schema.old.nodes }
    ensures { OnOk result (ArePut found schema.old schema.new) }
{
    let mut number = schema.nodes();
    let mut found = found;
    while let Some(values) = found.pop() {
        number -= 1;
        put(schema, number, values)?;
    }
    Ok(())
}

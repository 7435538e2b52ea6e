//! The values in use in a place and all below it.
ghost use Rattle.std.specs.Prelude.{◌≡◌, List, IfOk};
ghost use Rattle.nc_names.specs.declared.path.Row.{Row};
ghost use Rattle.nc_schema.specs.InUse as uses;
ghost use Rattle.nc_defaults.specs.Within.{AreWithin, IsWithin, place_here, places_in};
ghost use Rattle.nc_defaults.specs.inner.Below.{texts, values_among, values_at};

use crate::children::Children;
use crate::spots::{Spot, is_same_number, node_there, places_below};
use crate::values::values_in_use;
use nc_names::{Many, Memory, Text};
use nc_schema::Schema;
use nc_tree::Listed;
use std::alloc::Global;

fn parent_of(schema: &Schema, number: u32) -> Option<u32>
    ensures { result ≡ uses.parent_of schema.now number }
{
    schema.node(number)?.parent
}

fn stands_in(parent: Option<u32>, spot: &Spot<'_>) -> bool
    ensures { (rows : List Row) → result ≡ uses.stands_in parent
        (place_here rows spot.now.steps spot.now.here) }
{
    is_same_number(parent, node_there(spot.steps.as_slice()))
}

// The values in use in one place, where the leaf stands there.
fn values_at<'a>(
    alloc: Global,
    children: &Children<'a>,
    config: &'a Listed,
    spot: &Spot<'_>,
    number: u32,
) -> Result<Many<&'a Text>, Memory>
    requires { IsWithin config.now spot.now.here }
    ensures { IfOk result (λ it. texts it
        ≡ values_at children.now number (place_here config.now spot.now.steps spot.now.here)) }
{
    let schema = children.schema();
    if stands_in(parent_of(schema, number), spot) {
        return values_in_use(
            alloc,
            schema,
            config,
            spot.steps.as_slice(),
            spot.here,
            number,
        );
    }
    Ok(Many::new(alloc))
}

// The values in use in some places.
fn values_among<'a>(
    alloc: Global,
    children: &Children<'a>,
    config: &'a Listed,
    spots: &[Spot<'_>],
    number: u32,
) -> Result<Many<&'a Text>, Memory>
    requires { AreWithin config.now spots.now }
    ensures { IfOk result (λ it. texts it
        ≡ values_among children.now number (places_in config.now spots.now)) }
{
    let mut out = Many::new(alloc);
    for spot in spots {
        out.append(values_at(alloc, children, config, spot, number)?)?;
    }
    Ok(out)
}

/// The values in use of a leaf or leaf-list in a place and all below it (RFC 7950 7.6.1, 7.7.2). It takes
/// memory for each of these places while it runs.
pub fn values_below<'a>(
    alloc: Global,
    children: &Children<'a>,
    config: &'a Listed,
    spot: &Spot<'_>,
    number: u32,
) -> Result<Many<&'a Text>, Memory>
    requires { IsWithin config.now spot.now.here }
    ensures { IfOk result (λ it. texts it
        ≡ uses.values_below children.now (place_here config.now spot.now.steps spot.now.here) number) }
{
    let mut out = values_at(alloc, children, config, spot, number)?;
    let steps = spot.steps.as_slice();
    let below = places_below(alloc, children, config, steps, spot.here)?;
    let spots = below.as_slice();
    let values = values_among(alloc, children, config, spots, number)?;
    out.append(values)?;
    Ok(out)
}

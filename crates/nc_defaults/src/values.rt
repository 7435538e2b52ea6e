//! All values in use of a leaf or leaf-list.
ghost use Rattle.std.specs.Prelude.{◌≡◌, map, IfOk};
ghost use Rattle.nc_schema.specs.InUse as uses;
ghost use Rattle.nc_defaults.specs.Within.{IsWithin, place_here};

use crate::cases::{all_chosen_or_default, cases_of};
use crate::here::Here;
use crate::parts::{is_of, next_of, run_end};
use crate::value::value_of;
use nc_names::{Many, Memory, Step, Text};
use nc_schema::Schema;
use nc_tree::Listed;
use std::alloc::Global;

fn values_there<'a>(
    alloc: Global,
    config: &'a Listed,
    steps: &[Step],
    here: Here,
    number: u32,
) -> Result<Many<&'a Text>, Memory>
    requires { IsWithin config.now here }
    ensures { IfOk result (λ it. map (λ text. text.now) it
        ≡ uses.values_there (place_here config.now steps.now here) number) }
{
    let mut out = Many::new(alloc);
    let depth = steps.len();
    let mut at = here.from;
    'part: while at < here.to {
        let end = run_end(config, depth, at, here.to);
        if is_of(number, next_of(config, depth, at)) {
            if let Some(value) = value_of(config, at) {
                out.push(value)?;
            }
        }
        at = end;
    }
    Ok(out)
}

fn defaults_of(alloc: Global, schema: &Schema, number: u32) -> Result<Many<&Text>, Memory>
    ensures { IfOk result (λ it. map (λ text. text.now) it ≡ uses.defaults_of schema.now number) }
{
    let mut out = Many::new(alloc);
    if let Some(node) = schema.node(number) {
        for default in node.defaults.as_slice() {
            out.push(default)?;
        }
    }
    Ok(out)
}

/// The values in use of a leaf or leaf-list in a place (RFC 7950 7.6.1, 7.7.2).
pub fn values_in_use<'a>(
    alloc: Global,
    schema: &'a Schema,
    config: &'a Listed,
    steps: &[Step],
    here: Here,
    number: u32,
) -> Result<Many<&'a Text>, Memory>
    requires { IsWithin config.now here }
    ensures { IfOk result (λ it. map (λ text. text.now) it
        ≡ uses.values_in_use schema.now (place_here config.now steps.now here) number) }
{
    let stored = values_there(alloc, config, steps, here, number)?;
    if !stored.is_empty() {
        return Ok(stored);
    }
    let cases = cases_of(schema, number);
    if here.defaults && all_chosen_or_default(schema, config, steps, here, cases) {
        return defaults_of(alloc, schema, number);
    }
    Ok(stored)
}

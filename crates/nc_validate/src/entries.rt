//! The instances of one data node in a place, as places (RFC 7950 7.5, 7.8).
ghost use Rattle.std.specs.Prelude.{◌≡◌, ◌+◌, ◌≤◌, ◌++◌, ◌∷◌, [], length, map, IfOk};
ghost use Rattle.std.specs.List.{filter};
ghost use Rattle.nc_schema.specs.Places as places;
ghost use Rattle.nc_defaults.specs.Within.{AreWithin, IsWithin, place_here, places_in};
ghost use Rattle.nc_validate.specs.inner.Parts.{part_from};

use nc_defaults::{Here, Spot, found_next, next_of, place_of, run_end};
use nc_names::{Many, Memory, Step};
use nc_schema::{Node, Schema};
use nc_tree::Listed;
use std::alloc::Global;

// With the part whose rows are these, where it is of the data node.
fn with_part<'a>(
    out: Many<Spot<'a>>,
    schema: &Schema,
    config: &'a Listed,
    steps: &[Step],
    here: Here,
    child: (u32, &Node),
    rows: (u64, u64),
) -> Result<Many<Spot<'a>>, Memory>
    requires here { IsWithin config.now here }
    requires some { rows.0 + 1 ≤ rows.1 }
    requires end { rows.1 ≤ length config.now }
    ensures places { IfOk result (λ it. places_in config.now it ≡ places_in config.now out.entry
        ++ map (places.place_of schema.now (place_here config.now steps.now here) child.entry.1.now)
        (filter (places.is_of child.entry.0) (part_from (length steps.now) config.now rows.0 rows.1 ∷ []))) }
    ensures within { AreWithin config.now out.entry → IfOk result (AreWithin config.now) }
{
    let mut out = out;
    let alloc = out.alloc();
    let (number, node) = child;
    let Some(step) = next_of(config, steps.len(), rows.0) else {
        return Ok(out);
    };
    if step.node != number {
        return Ok(out);
    }
    let below = place_of(schema, config, steps, here, node, rows);
    out.push(Spot {
        steps: found_next(config, rows.0, steps, alloc, step)?,
        here: below,
    })?;
    Ok(out)
}

/// The instances of a data node in a place that stand there, as places, in document order.
pub(crate) fn entries<'a>(
    alloc: Global,
    schema: &Schema,
    config: &'a Listed,
    steps: &[Step],
    here: Here,
    child: (u32, &Node),
) -> Result<Many<Spot<'a>>, Memory>
    requires { IsWithin config.now here }
    ensures places { IfOk result (λ it. places_in config.now it
        ≡ map (places.place_of schema.now (place_here config.now steps.now here) child.entry.1.now)
        (places.parts_of (place_here config.now steps.now here) child.entry.0)) }
    ensures within { IfOk result (AreWithin config.now) }
{
    let mut out = Many::new(alloc);
    let mut at = here.from;
    'part: while at < here.to {
        let end = run_end(config, steps.len(), at, here.to);
        out = with_part(out, schema, config, steps, here, child, (at, end))?;
        at = end;
    }
    Ok(out)
}

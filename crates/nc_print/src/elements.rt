//! The rows as elements.
ghost use Rattle.std.specs.Prelude.{◌≡◌, ◌+◌, ◌^◌, ◌<◌, ◌++◌, map, Some, IfOk};
ghost use Rattle.std.specs.Option.{option_copied};
ghost use Rattle.nc_protocol.specs.Printed as printed;

use crate::element::node_part;
use crate::latest::Latest;
use crate::runs::{front, longest, own_value, run, tail};
use nc_message::Part;
use nc_names::{Many, Memory, Row, Step, Text};
use nc_schema::Schema;
use std::alloc::Global;

// Adds the element of a step, unless the schema has no such node.
fn push_step(
    alloc: Global,
    schema: &Schema,
    step: &Step,
    value: Option<&Text>,
    below: Many<Part>,
    latest: &mut Latest,
    parts: &mut Many<Part>,
) -> Result<(), Memory>
    ensures { IfOk result (λ _. parts.new
        ≡ parts.old ++ printed.step_parts schema.now (option_copied value.entry) below (Some step.now)) }
{
    if let Some(node) = schema.node(step.node) {
        parts.push(node_part(alloc, schema, step.node, node, value, below, latest)?)?;
    }
    Ok(())
}

// Adds the element of rows that stand together.
#[cycle(print)]
fn push_run(
    alloc: Global,
    schema: &Schema,
    levels: usize,
    depth: usize,
    rows: &[&Row],
    latest: &mut Latest,
    parts: &mut Many<Part>,
) -> Result<(), Memory>
    requires { depth + 1 + levels < 2 ^ 64 }
    ensures { IfOk result (λ _. parts.new ≡ parts.old
        ++ printed.run_parts schema.now (printed.parts_at schema.now levels (depth + 1)) depth
        (map (λ row. row.now) rows.now)) }
{
    let Some(row) = rows.first() else {
        return Ok(());
    };
    let Some(step) = row.path.steps.get(depth) else {
        return Ok(());
    };
    let below = parts_at(alloc, schema, levels, depth + 1, rows, latest)?;
    push_step(
        alloc,
        schema,
        step,
        own_value(depth, row),
        below,
        latest,
        parts,
    )
}

// The elements of rows at a depth, with so many levels of elements in them.
#[tactic(auto, using(crate::proofs::LevelLemmas::levels_are, crate::proofs::LevelLemmas::next_run))]
#[cycle(print)]
fn parts_at(
    alloc: Global,
    schema: &Schema,
    levels: usize,
    depth: usize,
    rows: &[&Row],
    latest: &mut Latest,
) -> Result<Many<Part>, Memory>
    requires { depth + levels < 2 ^ 64 }
    ensures { IfOk result (λ it. it
        ≡ printed.parts_at schema.now levels depth (map (λ row. row.now) rows.now)) }
{
    let mut parts = Many::new(alloc);
    if levels == 0 {
        return Ok(parts);
    }
    let mut rest = rows;
    'runs: while !rest.is_empty() {
        let count = run(depth, rest);
        push_run(
            alloc,
            schema,
            levels - 1,
            depth,
            front(rest, count),
            latest,
            &mut parts,
        )?;
        rest = tail(rest, count);
    }
    Ok(parts)
}

// The rows, each where it stands.
fn listed<'a>(alloc: Global, rows: &'a [Row]) -> Result<Many<&'a Row>, Memory>
    ensures { IfOk result (λ it. map (λ row. row.now) it ≡ rows.now) }
{
    let mut found = Many::new(alloc);
    for row in rows {
        found.push(row)?;
    }
    Ok(found)
}

/// The rows of a configuration as elements, in document order (RFC 7950 7.5.7, 7.6.5, 7.7.8 and 7.8.5). Want
/// of memory alone is an error.
pub fn print(alloc: Global, schema: &Schema, rows: &[Row]) -> Result<Many<Part>, Memory>
    ensures { IfOk result (λ it. it ≡ printed.printed schema.now rows.now) }
{
    let rows = listed(alloc, rows)?;
    let rows = rows.as_slice();
    let mut latest = Latest::new(alloc);
    parts_at(alloc, schema, longest(rows), 0, rows, &mut latest)
}

//! The rows that are asked whether they are updated, where two configurations have most rows in common.
ghost use Rattle.std.specs.Prelude.{◌≡◌, ◌++◌, true, if◌then◌else◌, List, IfOk, OnOk, map};
ghost use Rattle.std.specs.List.{filter, list_any};
ghost use Rattle.std.specs.Ordering.{is_lt};
ghost use Rattle.nc_names.specs.declared.path.Row.{Row};
ghost use Rattle.nc_changes.specs.inner.Asked as inner;

use crate::tops::{are_all_apart, are_seen_apart};
use nc_names::{Many, Memory, Row, Step};
use nc_schema::Schema;
use nc_tree::{Config, node_of};
use std::alloc::Global;
use std::cmp::Ordering;

// So many rows are asked one by one; where there are more, it pays to look at all of them once first.
pub(crate) const FEW: usize = 256;

fn comes_before(steps: &[Step], others: &[Step]) -> bool
    ensures { result ≡ is_lt (inner.order steps.now others.now) }
{
    matches!(steps.cmp(others), Ordering::Less)
}

// Whether steps lead to an entry that the user orders.
fn is_ordered(schema: &Schema, steps: &[Step]) -> bool
    ensures { result ≡ inner.is_ordered schema.now steps.now }
{
    match node_of(schema, steps) {
        Some(node) => node.by_user,
        None => false,
    }
}

// Adds those of the rows of both that are asked, where no row before them comes after the highest steps.
// A row that comes after all before it is the first at its path: where the user does not order it, it is as
// it was. Answers the highest steps then.
fn push_asked<'a>(
    schema: &Schema,
    highest: &'a [Step],
    rows: &[&'a Row],
    asked: &mut Many<&'a Row>,
) -> Result<&'a [Step], Memory>
    ensures { IfOk result (λ it. inner.AddsAsked schema.now highest.now (map (λ row. row.now) rows.now)
        (map (λ row. row.now) asked.old) (map (λ row. row.now) asked.new) it.now) }
{
    let mut highest = highest;
    for row in rows {
        let steps = row.path.steps.as_slice();
        if !comes_before(highest, steps) {
            asked.push(*row)?;
            continue;
        }
        highest = steps;
        if !is_ordered(schema, steps) {
            continue;
        }
        asked.push(*row)?;
    }
    Ok(highest)
}

// The highest steps, with those of more rows.
fn highest_of<'a>(highest: &'a [Step], rows: &[&'a Row]) -> &'a [Step]
    ensures { (before : List Row) → inner.are_below highest.now before ≡ true →
        inner.are_below result.now (before ++ map (λ row. row.now) rows.now) ≡ true }
{
    let mut highest = highest;
    for row in rows {
        let steps = row.path.steps.as_slice();
        if !comes_before(highest, steps) {
            continue;
        }
        highest = steps;
    }
    highest
}

fn push_all<'a>(rows: &[&'a Row], asked: &mut Many<&'a Row>) -> Result<(), Memory>
    ensures { OnOk result (map (λ row. row.now) asked.new
        ≡ map (λ row. row.now) asked.old ++ map (λ row. row.now) rows.now) }
{
    for row in rows {
        asked.push(*row)?;
    }
    Ok(())
}

// Of the rows of a configuration those that may be updated, and those that come anew, where the rows of both
// mostly rise.
fn rows_rising<'a>(
    alloc: Global,
    schema: &Schema,
    above: &[&'a Row],
    gone: &[&'a Row],
    come: &[&'a Row],
    below: &[&'a Row],
) -> Result<Many<&'a Row>, Memory>
    ensures { IfOk result (λ it. inner.AreAsked schema.now (map (λ row. row.now) above.now)
        (map (λ row. row.now) gone.now) (map (λ row. row.now) come.now) (map (λ row. row.now) below.now)
        (map (λ row. row.now) it)) }
{
    let mut asked = Many::new(alloc);
    let highest = push_asked(schema, &[], above, &mut asked)?;
    let highest = highest_of(highest, gone);
    push_all(come, &mut asked)?;
    push_asked(schema, highest, below, &mut asked)?;
    Ok(asked)
}

// Whether one of the rows is an entry that the user orders.
fn has_ordered(schema: &Schema, rows: &[&Row]) -> bool
    ensures { result ≡ list_any (inner.is_placed schema.now) (map (λ row. row.now) rows.now) }
{
    for row in rows {
        if is_ordered(schema, row.path.steps.as_slice()) {
            return true;
        }
    }
    false
}

// Adds those of the rows that are entries that the user orders.
fn push_ordered<'a>(
    schema: &Schema,
    rows: &[&'a Row],
    asked: &mut Many<&'a Row>,
) -> Result<(), Memory>
    ensures { OnOk result (map (λ row. row.now) asked.new ≡ map (λ row. row.now) asked.old
        ++ filter (inner.is_placed schema.now) (map (λ row. row.now) rows.now)) }
{
    for row in rows {
        if is_ordered(schema, row.path.steps.as_slice()) {
            asked.push(*row)?;
        }
    }
    Ok(())
}

// Whether such an entry comes or goes: where none does, none has moved.
fn may_move(schema: &Schema, gone: &[&Row], come: &[&Row]) -> bool
    ensures { result ≡ inner.may_move schema.now (map (λ row. row.now) gone.now)
        (map (λ row. row.now) come.now) }
{
    has_ordered(schema, gone) || has_ordered(schema, come)
}

// The rows that are asked where no two that stood have one path: beside those that come anew the entries that
// may have moved.
fn rows_apart<'a>(
    alloc: Global,
    schema: &Schema,
    above: &[&'a Row],
    gone: &[&'a Row],
    come: &[&'a Row],
    below: &[&'a Row],
) -> Result<Many<&'a Row>, Memory>
    ensures { IfOk result (λ it. map (λ row. row.now) it ≡ inner.asked_apart schema.now
        (map (λ row. row.now) above.now) (map (λ row. row.now) gone.now) (map (λ row. row.now) come.now)
        (map (λ row. row.now) below.now)) }
{
    let mut asked = Many::new(alloc);
    if !may_move(schema, gone, come) {
        push_all(come, &mut asked)?;
        return Ok(asked);
    }
    push_ordered(schema, above, &mut asked)?;
    push_all(come, &mut asked)?;
    push_ordered(schema, below, &mut asked)?;
    Ok(asked)
}

// Of the rows of a configuration those that may be updated, and those that come anew, by a look at each of
// them. Entries that the user orders do not rise, nor do the rows in them: where these are many, one look at
// all rows tells that none of them stands twice.
fn rows_looked_at<'a>(
    alloc: Global,
    schema: &Schema,
    old: &Config,
    above: &[&'a Row],
    gone: &[&'a Row],
    come: &[&'a Row],
    below: &[&'a Row],
) -> Result<Many<&'a Row>, Memory>
    requires { old.now ≡ map (λ row. row.now) above.now
        ++ (map (λ row. row.now) gone.now ++ map (λ row. row.now) below.now) }
    ensures { IfOk result (λ it. inner.AreAsked schema.now (map (λ row. row.now) above.now)
        (map (λ row. row.now) gone.now) (map (λ row. row.now) come.now) (map (λ row. row.now) below.now)
        (map (λ row. row.now) it)) }
{
    let asked = rows_rising(alloc, schema, above, gone, come, below)?;
    if asked.len() <= come.len().saturating_add(FEW) {
        return Ok(asked);
    }
    let apart = are_all_apart(alloc, old)?;
    if !apart {
        return Ok(asked);
    }
    let fewer = rows_apart(alloc, schema, above, gone, come, below)?;
    Ok(fewer)
}

/// Of the rows of a configuration those that may be updated, and those that come anew: these stand now where
/// those that go stood, between `above` and `below`. Where it is seen at once that no two rows that stood
/// have one path, none of the others is looked at.
pub(crate) fn rows_asked<'a>(
    alloc: Global,
    schema: &Schema,
    old: &Config,
    above: &[&'a Row],
    gone: &[&'a Row],
    come: &[&'a Row],
    below: &[&'a Row],
) -> Result<Many<&'a Row>, Memory>
    requires { old.now ≡ map (λ row. row.now) above.now
        ++ (map (λ row. row.now) gone.now ++ map (λ row. row.now) below.now) }
    ensures { IfOk result (λ it. inner.AreAsked schema.now (map (λ row. row.now) above.now)
        (map (λ row. row.now) gone.now) (map (λ row. row.now) come.now) (map (λ row. row.now) below.now)
        (map (λ row. row.now) it)) }
{
    let apart = are_seen_apart(alloc, old)?;
    if !apart {
        return rows_looked_at(alloc, schema, old, above, gone, come, below);
    }
    let fewer = rows_apart(alloc, schema, above, gone, come, below)?;
    Ok(fewer)
}

//! The rows that a filter keeps (RFC 6241 6).
ghost use Rattle.std.specs.Prelude.{◌≡◌, ◌&&◌, ◌||◌, ◌==◌, ◌++◌, ◌∷◌, Bool, if◌then◌else◌, [], List};
ghost use Rattle.std.specs.Prelude.{IfOk, None};
ghost use Rattle.std.specs.Prelude.{map, option_map};
ghost use Rattle.std.specs.List.{filter, last_or, list_any};
ghost use Rattle.nc_names.specs.declared.path.Row.{Row};
ghost use Rattle.nc_schema.specs.Order.{keys_above};
ghost use Rattle.nc_protocol.specs.Filter as meant;
ghost use Rattle.nc_filter.specs.inner.Tables.{ArePlaces, IsIndex};

use crate::basis::Basis;
use crate::element::last_step;
use crate::front::met_rows;
use crate::index::{Index, above_last};
use crate::places::Places;
use crate::short::shortened;
use crate::walk::pick_within;
use nc_message::Elem;
use nc_names::{Copies, Many, Memory, Row, Step};
use nc_schema::{Node, Schema};
use nc_tree::Config;
use std::alloc::Global;

fn push_copy_if(rows: Many<Row>, selected: bool, row: &Row) -> Result<Many<Row>, Memory>
    ensures { IfOk result (λ it. it ≡ (if selected then rows ++ row.now ∷ [] else rows)) }
{
    let mut rows = rows;
    if selected {
        rows.push(row.copy()?)?;
    }
    Ok(rows)
}

// The rows that the filter selects by itself, in some order.
fn chosen<'a>(
    basis: &Basis<'a>,
    filter: &'a Elem,
    rows: &[&'a Row],
) -> Result<Many<&'a Row>, Memory>
    ensures { IfOk result (λ it. IsIndex basis.now.index.table (map (λ row. row.now) rows.now) →
        (test : Row → Bool) →
        list_any test (map (λ row. row.now) it)
        ≡ list_any test (meant.chosen basis.now.schema.now filter.now (map (λ row. row.now) rows.now))) }
{
    let mut elems = Many::new(basis.alloc);
    elems.push(filter)?;
    let top = elems.as_slice();
    let none = Many::new(basis.alloc);
    let found = pick_within(basis, 0, top, rows, none)?;
    Ok(found)
}

fn has_key(node: &Node, number: u32) -> bool
    ensures { result ≡ list_any (λ key. key == number) node.now.keys }
{
    node.keys.as_slice().iter().any(|key| *key == number)
}

// Whether a data node is a key of the list entry to which the steps lead.
fn is_key_in(schema: &Schema, above: &[Step], number: u32) -> bool
    ensures { result ≡ list_any (λ key. key == number)
        (keys_above schema.now (option_map (λ over. over.node) (last_or None above.now))) }
{
    match last_step(above) {
        Some(over) => match schema.node(over.node) {
            Some(node) => has_key(node, number),
            None => false,
        },
        None => false,
    }
}

/// Whether the node at the steps is a key of the entry in which it stands.
pub(crate) fn is_key_of_entry(schema: &Schema, steps: &[Step]) -> bool
    ensures { result ≡ meant.is_key_of_entry schema.now steps.now }
{
    match last_step(steps) {
        Some(step) => is_key_in(schema, above_last(steps), step.node),
        None => false,
    }
}

fn is_either(stands_above: bool, is_key: bool, is_of_entry: bool) -> bool
    ensures { result ≡ (stands_above || (is_key && is_of_entry)) }
{
    stands_above || (is_key && is_of_entry)
}

// Whether a row comes with those that are selected.
fn is_kept<'a>(schema: &Schema, places: &Places<'a>, row: &'a Row) -> bool
    ensures { (rows : List Row) → ArePlaces places.now.items rows → result
        ≡ list_any (λ other. meant.comes_with schema.now other row.now) rows }
{
    let steps = row.path.steps.as_slice();
    let stands_above = places.has(steps);
    let is_key = is_key_of_entry(schema, steps);
    let is_of_entry = places.has(above_last(steps));
    is_either(stands_above, is_key, is_of_entry)
}

// The rows that come with those that are selected.
fn kept<'a>(
    alloc: Global,
    schema: &Schema,
    places: &Places<'a>,
    rows: &[&'a Row],
) -> Result<Many<Row>, Memory>
    ensures { IfOk result (λ it. (found : List Row) → ArePlaces places.now.items found →
        it ≡ filter (λ row. list_any (λ other. meant.comes_with schema.now other row) found)
        (map (λ row. row.now) rows.now)) }
{
    let mut out = Many::new(alloc);
    for row in rows {
        out = push_copy_if(out, is_kept(schema, places, *row), *row)?;
    }
    Ok(out)
}

fn selected_rows<'a>(
    alloc: Global,
    schema: &'a Schema,
    filter: &'a Elem,
    rows: &[&'a Row],
) -> Result<Many<Row>, Memory>
    ensures { IfOk result (λ it. it
        ≡ meant.selected schema.now filter.now (map (λ row. row.now) rows.now)) }
{
    let index = Index::new(alloc, rows)?;
    let basis = Basis {
        alloc,
        schema,
        index,
    };
    let found = chosen(&basis, filter, rows)?;
    let places = Places::new(alloc, found.as_slice())?;
    let out = kept(alloc, schema, &places, rows)?;
    Ok(out)
}

fn rows_of(
    alloc: Global,
    schema: &Schema,
    filter: &Elem,
    config: &Config,
) -> Result<Many<Row>, Memory>
    ensures { IfOk result (λ it. it ≡ meant.selected schema.now filter.now config.now) }
{
    let rows = met_rows(alloc, schema, filter, config)?;
    selected_rows(alloc, schema, filter, rows.as_slice())
}

/// The rows of a configuration that a subtree filter keeps, in their order (RFC 6241 6). The
/// children of `filter` are its elements at the top.
pub fn select(
    alloc: Global,
    schema: &Schema,
    filter: &Elem,
    config: &Config,
) -> Result<Many<Row>, Memory>
    ensures { IfOk result (λ it. it ≡ meant.selected schema.now filter.now config.now) }
{
    match shortened(alloc, schema, filter)? {
        Some(short) => rows_of(alloc, schema, &short, config),
        None => rows_of(alloc, schema, filter, config),
    }
}

//! The rows at and below one node, and such rows among the others.
ghost use Rattle.std.specs.Prelude.{◌≡◌, ◌∷◌, ◌++◌, [], List, IfOk, Some, None, map, not};
ghost use Rattle.std.specs.List.{filter, last_or, list_any};
ghost use Rattle.std.specs.Option.{option_copied, option_map_or};
ghost use Rattle.nc_schema.specs.Blocks as blocks;
ghost use Rattle.nc_schema.specs.Configuration.{key_rows};
ghost use Rattle.nc_schema.specs.Standing as meant;
ghost use Rattle.nc_names.specs.declared.path.Row.{Row};
ghost use Rattle.nc_branches.specs.Sides as sides;

use crate::standing::{before_in, excludes, is_at_or_below, orders_of};
use nc_branches::Tree;
use nc_names::{Copies, Many, Memory, Path, Place, Row, Shared, Step, Text};
use nc_schema::{Kind, Node, Schema};
use std::alloc::Global;

fn is_excluded(schema: &Schema, block: &Many<Shared<Row>>, steps: &Many<Step>) -> bool
    ensures { result ≡ list_any (λ added. meant.excludes schema.now added.path.steps steps.now) block.now }
{
    block
        .as_slice()
        .iter()
        .any(|added| excludes(schema, &added.get().path.steps, steps))
}

/// Whether a row stays beside new rows at a node.
#[tactic(auto, unfolding(nc_branches::specs::Sides::stays))]
fn stays(schema: &Schema, path: &Path, block: &Many<Shared<Row>>, row: &Row) -> bool
    ensures { result ≡ sides.stays schema.now path.now.steps block.now row.now }
{
    !(is_at_or_below(&path.steps, &row.path) || is_excluded(schema, block, &row.path.steps))
}

/// The rows that stay beside new rows at a node.
fn other_rows(
    alloc: Global,
    schema: &Schema,
    rows: &Many<Shared<Row>>,
    path: &Path,
    block: &Many<Shared<Row>>,
) -> Result<Many<Shared<Row>>, Memory>
    ensures { IfOk result (λ it. it ≡ filter (sides.stays schema.now path.now.steps block.now) rows.now) }
{
    let mut others = Many::new(alloc);
    for row in rows.as_slice() {
        if stays(schema, path, block, row.get()) {
            others.push(row.copy()?)?;
        }
    }
    Ok(others)
}

/// Whether a row stands before the node to which the orders are.
#[tactic(auto, unfolding(nc_branches::specs::Sides::is_front))]
fn is_in_front(schema: &Schema, orders: &Many<Many<Many<Text>>>, path: &Path, row: &Row) -> bool
    ensures { result ≡ sides.is_front schema.now orders.now path.now.steps row.now }
{
    before_in(
        schema,
        orders.as_slice(),
        row.path.steps.as_slice(),
        path.steps.as_slice(),
    )
}

/// Puts a block in its place among other rows.
fn joined(
    alloc: Global,
    schema: &Schema,
    orders: &Many<Many<Many<Text>>>,
    path: &Path,
    block: Many<Shared<Row>>,
    others: Many<Shared<Row>>,
) -> Result<Many<Shared<Row>>, Memory>
    ensures { IfOk result (λ it. it ≡ filter
        (sides.is_front schema.now orders.now path.now.steps) others ++ block
        ++ filter (λ row. not (sides.is_front schema.now orders.now path.now.steps row)) others) }
{
    let mut front = Many::new(alloc);
    let mut back = Many::new(alloc);
    for row in others.into_vec() {
        if is_in_front(schema, orders, path, row.get()) {
            front.push(row)?;
        } else {
            back.push(row)?;
        }
    }
    front.append(block)?;
    front.append(back)?;
    Ok(front)
}

/// The rows at and below a node give way to others, which are put in a place.
fn with_others(
    alloc: Global,
    schema: &Schema,
    orders: &Many<Many<Many<Text>>>,
    path: &Path,
    block: Many<Shared<Row>>,
    rows: &Many<Shared<Row>>,
) -> Result<Many<Shared<Row>>, Memory>
    ensures { IfOk result (λ it. it ≡ sides.among schema.now orders.now path.now.steps block rows.now) }
{
    let others = other_rows(alloc, schema, rows, path, &block)?;
    joined(alloc, schema, orders, path, block, others)
}

/// The rows of a tree, as a list.
pub(crate) fn copied_rows(alloc: Global, tree: &Tree) -> Result<Many<Row>, Memory>
    ensures { IfOk result (λ it. it ≡ tree.now.rows) }
{
    let mut found = Many::new(alloc);
    tree.push_rows(&mut found)?;
    copied(alloc, found.as_slice())
}

/// Copies of rows.
pub(crate) fn copied(alloc: Global, rows: &[&Row]) -> Result<Many<Row>, Memory>
    ensures { IfOk result (λ it. it ≡ map (λ row. row.now) rows.now) }
{
    let mut all = Many::new(alloc);
    for row in rows {
        all.push(row.copy()?)?;
    }
    Ok(all)
}

/// The rows of a tree, shared.
pub(crate) fn shared_rows(alloc: Global, tree: &Tree) -> Result<Many<Shared<Row>>, Memory>
    ensures { IfOk result (λ it. it ≡ tree.now.rows) }
{
    let mut rows = Many::new(alloc);
    tree.push_shared(&mut rows)?;
    Ok(rows)
}

/// The rows at and below a node give way to others, which are put in a place.
pub(crate) fn put_block(
    alloc: Global,
    schema: &Schema,
    tree: &Tree,
    path: &Path,
    place: &Place,
    block: &Tree,
) -> Result<Many<Shared<Row>>, Memory>
    ensures { IfOk result (λ it. it
        ≡ blocks.with_block schema.now tree.now.rows path.now place.now block.now.rows) }
{
    let orders = orders_of(alloc, schema, tree, place, &path.steps)?;
    let rows = shared_rows(alloc, tree)?;
    let block = shared_rows(alloc, block)?;
    with_others(alloc, schema, &orders, path, block, &rows)
}

fn one_row(alloc: Global, path: &Path, value: &Option<Text>) -> Result<Many<Row>, Memory>
    ensures { IfOk result (λ it. it ≡ record { path = path.now; value = value.now } ∷ []) }
{
    let row = Row {
        path: path.copy()?,
        value: value.copy()?,
    };
    let mut rows = Many::new(alloc);
    rows.push(row)?;
    Ok(rows)
}

fn row_of_key(alloc: Global, entry: &Path, key: u32, value: &Text) -> Result<Row, Memory>
    ensures { IfOk result (λ it. it ≡ record {
      path = record { steps = entry.now.steps ++ record { node = key; keys = [] } ∷ [] };
      value = Some value.now;
    }) }
{
    let steps = entry.steps.copied_with(Step {
        node: key,
        keys: Many::new(alloc),
    })?;
    Ok(Row {
        path: Path { steps },
        value: Some(value.copy()?),
    })
}

fn rows_of_keys(
    alloc: Global,
    entry: &Path,
    keys: &[u32],
    values: &[Text],
) -> Result<Many<Row>, Memory>
    ensures { IfOk result (λ it. it ≡ key_rows entry.now.steps keys.now values.now) }
{
    let mut rows = Many::new(alloc);
    let mut rest = values;
    for key in keys {
        let Some((value, more)) = rest.split_first() else {
            return Ok(rows);
        };
        rows.push(row_of_key(alloc, entry, *key, value)?)?;
        rest = more;
    }
    Ok(rows)
}

fn entry_rows(
    alloc: Global,
    keys: &[u32],
    path: &Path,
    values: &[Text],
) -> Result<Many<Row>, Memory>
    ensures { IfOk result (λ it. it
        ≡ record { path = path.now; value = None } ∷ key_rows path.now.steps keys.now values.now) }
{
    let mut rows = one_row(alloc, path, &None)?;
    rows.append(rows_of_keys(alloc, path, keys, values)?)?;
    Ok(rows)
}

fn own_rows(
    alloc: Global,
    node: &Node,
    path: &Path,
    values: &[Text],
    value: &Option<Text>,
) -> Result<Many<Row>, Memory>
    ensures { IfOk result (λ it. it
        ≡ blocks.own_rows node.now.kind node.now.keys path.now values.now value.now) }
{
    match node.kind {
        Kind::Container { presence: true } => one_row(alloc, path, &None),
        Kind::Container { presence: false } => Ok(Many::new(alloc)),
        Kind::Leaf | Kind::LeafList => one_row(alloc, path, value),
        Kind::List => entry_rows(alloc, node.keys.as_slice(), path, values),
    }
}

/// The last of some steps.
pub fn last_step(steps: &[Step]) -> Option<&Step>
    ensures { option_copied result ≡ last_or None steps.now }
{
    let mut last: Option<&Step> = None;
    for step in steps {
        last = Some(step);
    }
    last
}

/// The data node to which steps lead.
pub fn node_of<'a>(schema: &'a Schema, steps: &[Step]) -> Option<&'a Node>
    ensures { option_copied result ≡ meant.node_of schema.now steps.now }
{
    schema.node(last_step(steps)?.node)
}

fn last_keys(steps: &Many<Step>) -> &[Text]
    ensures { result.now ≡ option_map_or (λ step. step.keys) (last_or None steps.now) [] }
{
    match last_step(steps.as_slice()) {
        Some(step) => step.keys.as_slice(),
        None => &[],
    }
}

/// The rows that a node has by itself: an entry with those of its keys, and none at a container without
/// presence.
pub fn rows_of_node(
    alloc: Global,
    schema: &Schema,
    path: &Path,
    value: &Option<Text>,
) -> Result<Many<Row>, Memory>
    ensures { IfOk result (λ it. it ≡ blocks.rows_of_node schema.now path.now value.now) }
{
    match node_of(schema, path.steps.as_slice()) {
        Some(node) => own_rows(alloc, node, path, last_keys(&path.steps), value),
        None => Ok(Many::new(alloc)),
    }
}

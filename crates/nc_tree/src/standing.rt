//! Where nodes stand among the rows of a configuration.
ghost use Rattle.std.specs.Prelude.{◌≡◌, ◌∷◌, ◌++◌, ◌≤◌, [], None, length, take, drop, IfOk, OnOk};
ghost use Rattle.nc_names.specs.Same as same;
ghost use Rattle.nc_schema.specs.Order as document;
ghost use Rattle.nc_schema.specs.Standing as meant;
ghost use Rattle.nc_branches.specs.Beneath.{keys_of};
ghost use Rattle.nc_branches.specs.Orders.{before_in, first_order, order_there, orders_of};

use nc_branches::{Tree, child_before, is_by_user, is_same_step, keys_before, stands_before};
use nc_names::{Copies, Many, Memory, Path, Place, Row, Step, Text, same_keys, tail};
use nc_schema::Schema;
use std::alloc::Global;

/// Whether a node is that of these steps, or below it.
pub(crate) fn is_at_or_below(steps: &Many<Step>, path: &Path) -> bool
    ensures { result ≡ same.is_at_or_below steps.now path.now }
{
    path.steps.as_slice().starts_with(steps.as_slice())
}

/// Whether two nodes belong to two cases of one choice (RFC 7950 7.9).
pub fn excludes(schema: &Schema, steps: &Many<Step>, others: &Many<Step>) -> bool
    ensures { result ≡ meant.excludes schema.now steps.now others.now }
{
    nc_branches::excludes(schema, steps.as_slice(), others.as_slice())
}

/// The entries of a list or leaf-list, in their order.
pub(crate) fn entries(
    alloc: Global,
    tree: &Tree,
    above: &[Step],
    number: u32,
) -> Result<Many<Many<Text>>, Memory>
    ensures { IfOk result (λ it. it ≡ meant.entries tree.now.rows above.now number) }
{
    let mut found = Many::new(alloc);
    tree.push_entries(above, number, &mut found)?;
    copied_keys(alloc, found.as_slice())
}

/// Copies of keys.
fn copied_keys(alloc: Global, found: &[&Many<Text>]) -> Result<Many<Many<Text>>, Memory>
    ensures { IfOk result (λ it. it ≡ keys_of found.now) }
{
    let mut order = Many::new(alloc);
    for keys in found {
        order.push(keys.copy()?)?;
    }
    Ok(order)
}

fn has_entry(keys: &Many<Text>, order: &[Many<Text>]) -> bool
    ensures { result ≡ meant.has_entry keys.now order.now }
{
    order.iter().any(|entry| same_keys(entry, keys))
}

/// The other entries in their order.
fn without_entry(
    alloc: Global,
    keys: &Many<Text>,
    order: &[Many<Text>],
) -> Result<Many<Many<Text>>, Memory>
    ensures { IfOk result (λ it. it ≡ meant.without_entry keys.now order.now) }
{
    let mut others = Many::new(alloc);
    for entry in order {
        if !same_keys(entry, keys) {
            others.push(entry.copy()?)?;
        }
    }
    Ok(others)
}

fn put_before(
    alloc: Global,
    anchor: &Many<Text>,
    keys: &Many<Text>,
    order: &[Many<Text>],
) -> Result<Many<Many<Text>>, Memory>
    ensures { IfOk result (λ it. it ≡ meant.put_before anchor.now keys.now order.now) }
{
    let mut out = Many::new(alloc);
    let mut rest = order;
    for entry in order {
        if same_keys(entry, anchor) {
            out.push(keys.copy()?)?;
            push_all(&mut out, rest)?;
            return Ok(out);
        }
        out.push(entry.copy()?)?;
        rest = tail(rest, 1);
    }
    Ok(out)
}

fn put_after(
    alloc: Global,
    anchor: &Many<Text>,
    keys: &Many<Text>,
    order: &[Many<Text>],
) -> Result<Many<Many<Text>>, Memory>
    ensures { IfOk result (λ it. it ≡ meant.put_after anchor.now keys.now order.now) }
{
    let mut out = Many::new(alloc);
    let mut rest = order;
    for entry in order {
        out.push(entry.copy()?)?;
        rest = tail(rest, 1);
        if same_keys(entry, anchor) {
            out.push(keys.copy()?)?;
            push_all(&mut out, rest)?;
            return Ok(out);
        }
    }
    Ok(out)
}

fn push_all(out: &mut Many<Many<Text>>, entries: &[Many<Text>]) -> Result<(), Memory>
    ensures { OnOk result (out.new ≡ out.old ++ entries.now) }
{
    for entry in entries {
        out.push(entry.copy()?)?;
    }
    Ok(())
}

fn kept_or_last(keys: &Many<Text>, order: Many<Many<Text>>) -> Result<Many<Many<Text>>, Memory>
    ensures { IfOk result (λ it. it ≡ meant.kept_or_last keys.now order) }
{
    let stands = has_entry(keys, order.as_slice());
    let mut order = order;
    if !stands {
        order.push(keys.copy()?)?;
    }
    Ok(order)
}

fn last_of(keys: &Many<Text>, order: Many<Many<Text>>) -> Result<Many<Many<Text>>, Memory>
    ensures { IfOk result (λ it. it ≡ order ++ keys.now ∷ []) }
{
    let mut order = order;
    order.push(keys.copy()?)?;
    Ok(order)
}

fn first_of(
    alloc: Global,
    keys: &Many<Text>,
    order: Many<Many<Text>>,
) -> Result<Many<Many<Text>>, Memory>
    ensures { IfOk result (λ it. it ≡ keys.now ∷ order) }
{
    let mut all = Many::new(alloc);
    all.push(keys.copy()?)?;
    all.append(order)?;
    Ok(all)
}

/// The entries in their order once one is put in its place.
fn placed(
    alloc: Global,
    place: &Place,
    keys: &Many<Text>,
    order: Many<Many<Text>>,
) -> Result<Many<Many<Text>>, Memory>
    ensures { IfOk result (λ it. it ≡ meant.placed place.now keys.now order) }
{
    match place {
        Place::Kept => kept_or_last(keys, order),
        Place::First => first_of(alloc, keys, without_entry(alloc, keys, order.as_slice())?),
        Place::Last => last_of(keys, without_entry(alloc, keys, order.as_slice())?),
        Place::Before(anchor) => {
            if same_keys(anchor, keys) {
                return kept_or_last(keys, order);
            }
            let others = without_entry(alloc, keys, order.as_slice())?;
            put_before(alloc, anchor, keys, others.as_slice())
        }
        Place::After(anchor) => {
            if same_keys(anchor, keys) {
                return kept_or_last(keys, order);
            }
            let others = without_entry(alloc, keys, order.as_slice())?;
            put_after(alloc, anchor, keys, others.as_slice())
        }
    }
}

/// The order of the entries beside a step where the user orders them, else nothing.
fn order_there(
    alloc: Global,
    schema: &Schema,
    tree: &Tree,
    place: &Place,
    above: &[Step],
    step: &Step,
) -> Result<Many<Many<Text>>, Memory>
    ensures { IfOk result (λ it. it ≡ order_there schema.now tree.now.rows place.now above.now step.now) }
{
    if !is_by_user(schema, step.node) {
        return Ok(Many::new(alloc));
    }
    let order = entries(alloc, tree, above, step.node)?;
    placed(alloc, place, &step.keys, order)
}

/// The first `at` of the steps.
pub(crate) fn head(steps: &Many<Step>, at: usize) -> &[Step]
    requires { at ≤ length steps.now }
    ensures { result.now ≡ take at steps.now }
{
    &steps.as_slice()[..at]
}

/// The orders of the entries along a path, the last with its entry in that place.
pub(crate) fn orders_of(
    alloc: Global,
    schema: &Schema,
    tree: &Tree,
    place: &Place,
    steps: &Many<Step>,
) -> Result<Many<Many<Many<Text>>>, Memory>
    ensures { IfOk result (λ it. it ≡ orders_of schema.now tree.now.rows place.now [] steps.now) }
{
    let mut orders = Many::new(alloc);
    let mut at = 0;
    for step in steps.as_slice() {
        let above = head(steps, at);
        at += 1;
        let order = if at == steps.len() {
            order_there(alloc, schema, tree, place, above, step)?
        } else {
            order_there(alloc, schema, tree, &Place::Kept, above, step)?
        };
        orders.push(order)?;
    }
    Ok(orders)
}

fn entry_before(schema: &Schema, order: &[Many<Text>], step: &Step, other: &Step) -> bool
    ensures { result ≡ meant.entry_before schema.now order.now step.now other.now }
{
    if is_by_user(schema, step.node) {
        return stands_before(order, &step.keys, &other.keys);
    }
    keys_before(&step.keys, &other.keys)
}

/// One of two siblings before the other, in document order.
fn sibling_before(
    schema: &Schema,
    above: Option<u32>,
    order: &[Many<Text>],
    step: &Step,
    other: &Step,
) -> bool
    ensures { result ≡
        meant.sibling_before schema.now (document.keys_above schema.now above) order.now step.now other.now }
{
    if child_before(schema, above, step.node, other.node) {
        return true;
    }
    step.node == other.node && entry_before(schema, order, step, other)
}

/// Whether a node stands before the one to which the orders are.
pub(crate) fn before_in(
    schema: &Schema,
    orders: &[Many<Many<Text>>],
    steps: &[Step],
    others: &[Step],
) -> bool
    ensures { result ≡ before_in schema.now orders.now None steps.now others.now }
{
    let mut rest = others;
    let mut left = orders;
    let mut above: Option<u32> = None;
    for step in steps {
        let Some((other, more)) = rest.split_first() else {
            return false;
        };
        let (order, lower) = split_orders(left);
        if !is_same_step(step, other) {
            return sibling_before(schema, above, order, step, other);
        }
        rest = more;
        left = lower;
        above = Some(other.node);
    }
    !rest.is_empty()
}

fn split_orders(orders: &[Many<Many<Text>>]) -> (&[Many<Text>], &[Many<Many<Text>>])
    ensures first { result.0.now ≡ first_order orders.now }
    ensures rest { result.1.now ≡ drop 1 orders.now }
{
    match orders.split_first() {
        Some((order, lower)) => (order.as_slice(), lower),
        None => (&[], orders),
    }
}

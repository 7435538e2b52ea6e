//! Which entries of an order stand before one of them, found once for all that are compared with it.
ghost use Rattle.std.specs.Prelude.{◌≡◌, ◌↔◌, IfOk, IsTrue, drop, List, ℕ};
ghost use Rattle.std.specs.Option.{option_copied};
ghost use Rattle.nc_names.specs.Same as same;
ghost use Rattle.nc_schema.specs.Standing as meant;
ghost use Rattle.nc_branches.specs.inner.Fronts.{HasEntries, entries_until, order_in, orders_in};
ghost use Rattle.nc_branches.specs.Orders.{first_order};

use nc_names::{Many, Memory, Step, Text, same_keys};
use std::alloc::Global;
use std::collections::BTreeSet;
use std::marker::Model;

/// Entries in their order, and those before one of them.
#[derive(Drop)]
pub(crate) struct Front<'a> {
    order: &'a [Many<Text>],
    keys: &'a [Text],
    known: BTreeSet<&'a Many<Text>>,
}

impl<'a> Model for Front<'a> {
    ghost use Rattle.nc_branches.specs.inner.Fronts.{Fronted, HasEntries, entries_until};

    ghost Value = { Fronted };

    ghost view = { λ f. record { order = f.order.now; keys = f.keys.now } };

    ghost invariant = { λ f. HasEntries f.known (entries_until f.keys.now f.order.now) };
}

/// The entries before one, to be looked up.
fn known_until<'a>(
    alloc: Global,
    order: &'a [Many<Text>],
    keys: &[Text],
) -> Result<BTreeSet<&'a Many<Text>>, Memory>
    ensures { IfOk result (λ it. HasEntries it (entries_until keys.now order.now)) }
{
    let mut known = BTreeSet::new(alloc);
    for entry in order {
        if are_same_keys(entry.as_slice(), keys) {
            return Ok(known);
        }
        known.insert(entry)?;
    }
    Ok(known)
}

/// Whether an entry is among those that are known.
fn is_known<'a>(known: &BTreeSet<&'a Many<Text>>, entry: &'a Many<Text>) -> bool
    ensures { (others : List (List (List ℕ))) → HasEntries known.now others →
        result ≡ meant.has_entry entry.now others }
{
    known.contains(&entry)
}

impl<'a> Front<'a> {
    fn new(alloc: Global, order: &'a [Many<Text>], keys: &'a [Text]) -> Result<Front<'a>, Memory>
        ensures { IfOk result (λ it. it ≡ record { order = order.now; keys = keys.now }) }
    {
        Ok(Front {
            order,
            keys,
            known: known_until(alloc, order, keys)?,
        })
    }

    /// Whether an entry stands before another.
    #[tactic(auto, using(crate::proofs::FrontLemmas::stands_until))]
    pub(crate) fn has_before(&self, keys: &'a Many<Text>, others: &Many<Text>) -> bool
        ensures { result ≡ meant.stands_before self.now.order keys.now others.now }
    {
        if are_same_keys(self.keys, others.as_slice()) {
            return is_known(&self.known, keys);
        }
        stands_before(self.order, keys, others)
    }
}

/// Whether two lists of keys are the same.
fn are_same_keys(keys: &[Text], others: &[Text]) -> bool
    ensures same { IsTrue result ↔ (keys.now ≡ others.now) }
    ensures word { result ≡ same.is_same_keys keys.now others.now }
{
    keys == others
}

/// Whether one entry of a list or leaf-list stands before another in an order.
pub fn stands_before(order: &[Many<Text>], keys: &Many<Text>, others: &Many<Text>) -> bool
    ensures { result ≡ meant.stands_before order.now keys.now others.now }
{
    for entry in order {
        if same_keys(entry, others) {
            return false;
        }
        if same_keys(entry, keys) {
            return true;
        }
    }
    false
}

/// The keys of the step so many steps below the top.
fn keys_at(steps: &[Step], at: usize) -> &[Text] {
    match steps.get(at) {
        Some(step) => step.keys.as_slice(),
        None => &[],
    }
}

/// The orders along a path, each with the entry in the path.
pub(crate) fn fronts_of<'a>(
    alloc: Global,
    orders: &'a [Many<Many<Text>>],
    steps: &'a [Step],
) -> Result<Many<Front<'a>>, Memory>
    ensures { IfOk result (λ it. orders_in it ≡ orders.now) }
{
    let mut fronts = Many::new(alloc);
    let mut at: usize = 0;
    for order in orders {
        fronts.push(Front::new(alloc, order.as_slice(), keys_at(steps, at))?)?;
        at = at.saturating_add(1);
    }
    Ok(fronts)
}

/// The order at a place among orders.
pub(crate) fn front_at<'b, 'a>(fronts: &'b Many<Front<'a>>, place: usize) -> Option<&'b Front<'a>>
    ensures { order_in (option_copied result) ≡ first_order (drop place (orders_in fronts.now)) }
{
    fronts.get(place)
}

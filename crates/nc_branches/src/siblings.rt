//! Whether one sibling stands before another, or gives way to it.
ghost use Rattle.std.specs.Prelude.{◌≡◌, ◌==◌, ◌&&◌, not, ltb};
ghost use Rattle.std.specs.List.{list_any};
ghost use Rattle.std.specs.Ordering.{nat_cmp};
ghost use Rattle.std.specs.Cmp.Lexicographic.{slice_cmp};
ghost use Rattle.std.specs.Option.{option_copied};
ghost use Rattle.nc_names.specs.Same as same;
ghost use Rattle.nc_branches.specs.inner.Fronts.{order_in};
ghost use Rattle.nc_schema.specs.Order as document;
ghost use Rattle.nc_schema.specs.Standing as meant;

use crate::front::Front;
use nc_names::{Many, Step, Text};
use nc_schema::{Case, Schema};
use std::cmp::Ordering;

/// Whether two steps are the same.
pub fn is_same_step(step: &Step, other: &Step) -> bool
    ensures { result ≡ same.is_same_step step.now other.now }
{
    step == other
}

/// Whether a case is of the choice of another in the list, and is not that one.
fn differs_from(one: &Case, others: &[Case]) -> bool
    ensures { result ≡ list_any
        (λ other. one.now.choice == other.choice && not (one.now.case == other.case)) others.now }
{
    others.iter().any(|other| one.choice == other.choice && one.case != other.case)
}

/// Whether a case is of the choice of another, and is not that one.
fn cases_differ(cases: &[Case], others: &[Case]) -> bool
    ensures { result ≡ meant.cases_differ cases.now others.now }
{
    cases.iter().any(|one| differs_from(one, others))
}

/// Whether two data nodes belong to two cases of one choice.
pub(crate) fn are_of_other_cases(schema: &Schema, number: u32, other: u32) -> bool
    ensures { result
        ≡ meant.cases_differ (meant.cases_of schema.now number) (meant.cases_of schema.now other) }
{
    cases_differ(cases_of(schema, number), cases_of(schema, other))
}

/// The cases to which a data node belongs (RFC 7950 7.9.2).
pub(crate) fn cases_of(schema: &Schema, number: u32) -> &[Case]
    ensures { result.now ≡ meant.cases_of schema.now number }
{
    match schema.node(number) {
        Some(node) => node.cases.as_slice(),
        None => &[],
    }
}

/// Whether a data node comes before another among the children of a parent with these keys.
fn place_before(keys: &Many<u32>, number: u32, other: u32) -> bool
    ensures { result ≡ ltb (document.sibling_place keys.now number) (document.sibling_place keys.now other) }
{
    for key in keys.as_slice() {
        if number == *key {
            return other != *key;
        }
        if other == *key {
            return false;
        }
    }
    number < other
}

/// Whether a data node comes before another among the children of a third, or at the top.
pub fn child_before(schema: &Schema, above: Option<u32>, number: u32, other: u32) -> bool
    ensures { result ≡ ltb (document.sibling_place (document.keys_above schema.now above) number)
        (document.sibling_place (document.keys_above schema.now above) other) }
{
    match above {
        Some(parent) => match schema.node(parent) {
            Some(node) => place_before(&node.keys, number, other),
            None => number < other,
        },
        None => number < other,
    }
}

/// Whether the user orders the entries of a list or leaf-list (RFC 7950 7.7.7).
pub fn is_by_user(schema: &Schema, number: u32) -> bool
    ensures { result ≡ meant.is_by_user schema.now number }
{
    match schema.node(number) {
        Some(node) => node.by_user,
        None => false,
    }
}

/// Whether the keys of an entry come before those of another, where the system orders them.
pub fn keys_before(keys: &Many<Text>, others: &Many<Text>) -> bool
    ensures { result ≡ meant.is_less (slice_cmp (slice_cmp nat_cmp) keys.now others.now) }
{
    keys.as_slice().cmp(others.as_slice()) == Ordering::Less
}

/// Whether an entry stands before another in the order that a front has.
fn stands_before<'a>(front: Option<&Front<'a>>, keys: &'a Many<Text>, others: &Many<Text>) -> bool
    ensures { result ≡ meant.stands_before (order_in (option_copied front.entry)) keys.now others.now }
{
    match front {
        None => false,
        Some(front) => front.has_before(keys, others),
    }
}

/// Whether an entry stands before another of its list.
fn entry_before<'a>(
    schema: &Schema,
    front: Option<&Front<'a>>,
    step: &'a Step,
    other: &Step,
) -> bool
    ensures { result
        ≡ meant.entry_before schema.now (order_in (option_copied front.entry)) step.now other.now }
{
    if is_by_user(schema, step.node) {
        return stands_before(front, &step.keys, &other.keys);
    }
    keys_before(&step.keys, &other.keys)
}

/// One of two siblings before the other, in document order.
pub(crate) fn sibling_before<'a>(
    schema: &Schema,
    above: Option<u32>,
    front: Option<&Front<'a>>,
    step: &'a Step,
    other: &Step,
) -> bool
    ensures { result ≡ meant.sibling_before schema.now (document.keys_above schema.now above)
        (order_in (option_copied front.entry)) step.now other.now }
{
    if child_before(schema, above, step.node, other.node) {
        return true;
    }
    step.node == other.node && entry_before(schema, front, step, other)
}

//! Which cases of choices are chosen in a place (RFC 7950 7.9).
ghost use Rattle.std.specs.Prelude.{◌≡◌, ◌==◌, ◌&&◌, ◌<◌, [], length, option_and_then, slice_get, Some};
ghost use Rattle.std.specs.List.{list_all, list_any};
ghost use Rattle.std.specs.Option.{option_copied, option_map_or};
ghost use Rattle.nc_schema.specs.Children.{is_same_number};
ghost use Rattle.nc_schema.specs.Places as places;
ghost use Rattle.nc_schema.specs.Standing.{cases_of};
ghost use Rattle.nc_defaults.specs.Within.{IsWithin, place_here};
ghost use Rattle.nc_defaults.specs.inner.Runs.{next_at};

use crate::here::Here;
use crate::parts::{next_of, run_end};
use nc_names::Step;
use nc_schema::{Case, Schema};
use nc_tree::Listed;

/// The cases of a data node.
pub(crate) fn cases_of(schema: &Schema, number: u32) -> &[Case]
    ensures { result.now ≡ cases_of schema.now number }
{
    match schema.node(number) {
        Some(node) => node.cases.as_slice(),
        None => &[],
    }
}

/// The cases of the node that begins at a place of the configuration.
fn cases_at<'a>(schema: &'a Schema, config: &Listed, depth: usize, at: u64) -> &'a [Case]
    requires { at < length config.now }
    ensures { result.now ≡ option_map_or
        (λ step. cases_of schema.now step.node) (next_at depth config.now at) [] }
{
    match next_of(config, depth, at) {
        Some(step) => cases_of(schema, step.node),
        None => &[],
    }
}

fn has_case(cases: &[Case], case: Case) -> bool
    ensures { result ≡ list_any (λ other. other.choice == case.choice && other.case == case.case) cases.now }
{
    cases.iter().any(|other| other.choice == case.choice && other.case == case.case)
}

fn has_choice(cases: &[Case], choice: u32) -> bool
    ensures { result ≡ list_any (λ other. other.choice == choice) cases.now }
{
    cases.iter().any(|other| other.choice == choice)
}

/// Whether a node of the case exists in a place.
pub fn is_chosen(schema: &Schema, config: &Listed, steps: &[Step], here: Here, case: Case) -> bool
    requires { IsWithin config.now here }
    ensures { result ≡ places.is_chosen schema.now (place_here config.now steps.now here) case }
{
    let mut at = here.from;
    'part: while at < here.to {
        let end = run_end(config, steps.len(), at, here.to);
        if has_case(cases_at(schema, config, steps.len(), at), case) {
            return true;
        }
        at = end;
    }
    false
}

/// Whether a node of the choice exists in a place.
pub fn is_made(schema: &Schema, config: &Listed, steps: &[Step], here: Here, choice: u32) -> bool
    requires { IsWithin config.now here }
    ensures { result ≡ places.is_made schema.now (place_here config.now steps.now here) choice }
{
    let mut at = here.from;
    'part: while at < here.to {
        let end = run_end(config, steps.len(), at, here.to);
        if has_choice(cases_at(schema, config, steps.len(), at), choice) {
            return true;
        }
        at = end;
    }
    false
}

fn default_case(schema: &Schema, choice: u32) -> Option<u32>
    ensures { result ≡ option_and_then (λ choice. choice.default_case) (slice_get schema.now.choices choice) }
{
    schema.choice(choice)?.default_case
}

fn is_number(number: Option<u32>, other: u32) -> bool
    ensures { result ≡ is_same_number number (Some other) }
{
    match number {
        Some(number) => number == other,
        None => false,
    }
}

fn is_chosen_or_default(
    schema: &Schema,
    config: &Listed,
    steps: &[Step],
    here: Here,
    case: Case,
) -> bool
    requires { IsWithin config.now here }
    ensures { result ≡ places.is_chosen_or_default schema.now (place_here config.now steps.now here) case }
{
    if is_chosen(schema, config, steps, here, case) {
        return true;
    }
    is_number(default_case(schema, case.choice), case.case)
        && !is_made(schema, config, steps, here, case.choice)
}

/// Whether a node of each case exists in a place.
pub fn all_chosen(
    schema: &Schema,
    config: &Listed,
    steps: &[Step],
    here: Here,
    cases: &[Case],
) -> bool
    requires { IsWithin config.now here }
    ensures { result
        ≡ list_all (places.is_chosen schema.now (place_here config.now steps.now here)) cases.now }
{
    for case in cases {
        if !is_chosen(schema, config, steps, here, *case) {
            return false;
        }
    }
    true
}

/// Whether a node of each case exists in a place, or the case is chosen by default.
pub(crate) fn all_chosen_or_default(
    schema: &Schema,
    config: &Listed,
    steps: &[Step],
    here: Here,
    cases: &[Case],
) -> bool
    requires { IsWithin config.now here }
    ensures { result
        ≡ list_all (places.is_chosen_or_default schema.now (place_here config.now steps.now here)) cases.now }
{
    for case in cases {
        if !is_chosen_or_default(schema, config, steps, here, *case) {
            return false;
        }
    }
    true
}
